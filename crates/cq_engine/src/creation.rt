//! CREATE VIEW.
ghost use Rattle.std.specs.Prelude.{◌≡◌, ℕ, IfOk, OnErr, OnOk};
ghost use Rattle.cq_model.specs.Views.{sources_of};
ghost use Rattle.cq_model_state.specs.Fitting.{AreFitting, AreLimited, rows_limit};
ghost use Rattle.cq_model_state.specs.State.{AreNumbered};
ghost use Rattle.cq_model_step.specs.Next.{new_view};
ghost use Rattle.cq_engine_answers.specs.Reading.{AreTablesThere};
ghost use Rattle.cq_engine.specs.Commands.{CanBuild};
ghost use Rattle.cq_engine_tables.specs.HeldTables.{tables_of};
ghost use Rattle.cq_engine_tables.specs.Views.{Fits, views_of};
ghost use Rattle.cq_engine.specs.Views.{IsAdded, IsBuilt, IsBuiltBehind};

use crate::gathering::gathered_rows;
use crate::table_widths::widths_of;
use cq_engine_tables::{NamedTable, View};
use cq_model::Query;
use cq_values::{ColumnDef, Seq, Text};
use cq_views::{KeptView, standing_depends_on_sources};
use std::alloc::{AllocError, Global};

/// Puts a view of this query behind the others, built from its tables as they are at this epoch.
pub(crate) fn create_view_in(
    alloc: Global,
    tables: &[NamedTable],
    views: &mut Vec<View>,
    name: Text,
    columns: Seq<ColumnDef>,
    query: Query,
    now: u64,
) -> Result<(), AllocError>
    requires numbered { (next : ℕ) × AreNumbered (tables_of tables.now) next }
    requires fitting { AreFitting (tables_of tables.now) }
    requires limited { AreLimited rows_limit (tables_of tables.now) }
    requires can_build { CanBuild (tables_of tables.now) (views_of views.old.items) columns query }
    ensures created { OnOk result (IsAdded (new_view name columns query now) views.old views.new) }
    ensures built { OnOk result (IsBuiltBehind (tables_of tables.now) columns query now views.old views.new) }
    ensures err { OnErr result (views.new.items ≡ views.old.items) }
{
    let state = built_state(alloc, tables, query, now)?;
    views.push(View::new(name, columns, state))?;
    Ok(())
}

/// What is kept of a view, built from the rows of its tables.
fn built_state(
    alloc: Global,
    tables: &[NamedTable],
    query: Query,
    now: u64,
) -> Result<KeptView, AllocError>
    requires numbered { (next : ℕ) × AreNumbered (tables_of tables.now) next }
    requires fitting { AreFitting (tables_of tables.now) }
    requires limited { AreLimited rows_limit (tables_of tables.now) }
    requires fits { Fits query }
    requires there { AreTablesThere (tables_of tables.now) (sources_of query) }
    ensures { IfOk result (IsBuilt (tables_of tables.now) query now) }
{
    let sources = gathered_rows(alloc, tables, &query)?;
    let widths = widths_of(alloc, tables, &query)?;
    let state = KeptView::build(alloc, query, widths, &sources, now)?;
    standing_depends_on_sources();
    Ok(state)
}
