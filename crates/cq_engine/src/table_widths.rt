//! How many columns the tables have that a query names.
ghost use Rattle.std.specs.List.{AllByRecursion, AllZip};
ghost use Rattle.std.specs.Prelude.{◌<◌, ◌^◌, ℕ, IfOk, sum};
ghost use Rattle.cq_model.specs.Views.{sources_of};
ghost use Rattle.cq_model_state.specs.State.{AreNumbered};
ghost use Rattle.cq_engine.specs.TableWidths.{IsTableThere};
ghost use Rattle.cq_engine_tables.specs.HeldTables.{tables_of};
ghost use Rattle.cq_engine_tables.specs.Views.{AreWide, IsWide};

use cq_engine_tables::{NamedTable, place_numbered};
use cq_model::{Query, Source};
use cq_model_terms::sources_of;
use cq_segments_pieces::widened;
use cq_values::Seq;
use std::alloc::{AllocError, Global};

/// How many columns each table has that FROM names, in its order.
pub(crate) fn widths_of(
    alloc: Global,
    tables: &[NamedTable],
    query: &Query,
) -> Result<Seq<usize>, AllocError>
    requires numbered { (next : ℕ) × AreNumbered (tables_of tables.now) next }
    requires there { AllByRecursion (IsTableThere (tables_of tables.now)) (sources_of query.now) }
    ensures wide { IfOk result (λ widths. AreWide (tables_of tables.now) query.now widths) }
    ensures sum { IfOk result (λ widths. sum widths < 2 ^ 64) }
{
    let sources = sources_of(alloc, query)?;
    all_widths(alloc, tables, &sources)
}

/// How many columns the table of each of these sources has.
fn all_widths(
    alloc: Global,
    tables: &[NamedTable],
    sources: &[Source],
) -> Result<Seq<usize>, AllocError>
    requires numbered { (next : ℕ) × AreNumbered (tables_of tables.now) next }
    requires there { AllByRecursion (IsTableThere (tables_of tables.now)) sources.now }
    ensures wide { IfOk result (λ widths. AllZip (IsWide (tables_of tables.now)) sources.now widths) }
    ensures sum { IfOk result (λ widths. sum widths < 2 ^ 64) }
{
    let mut widths = Seq::new(alloc);
    let mut total = 0;
    for source in sources {
        let wide = width_of(tables, *source);
        total = widened(alloc, total, wide)?;
        widths.push(wide)?;
    }
    Ok(widths)
}

/// How many columns the table of a source has.
fn width_of(tables: &[NamedTable], source: Source) -> usize
    requires numbered { (next : ℕ) × AreNumbered (tables_of tables.now) next }
    requires there { IsTableThere (tables_of tables.now) source }
    ensures { IsWide (tables_of tables.now) source result }
{
    match source {
        Source::Table(number) => {
            let place = place_numbered(tables, number);
            tables[place].table().columns().len()
        }
        Source::View(_) => 0,
    }
}
