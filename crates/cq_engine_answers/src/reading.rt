//! SELECT from tables and from views.
//!
//! The rows of the views that FROM names are made, and those of its tables are lent where they are. The query is planned,
//! and an [`Exec`] on these rows gives the whole list. A query that shows each row of one view with all its columns lists
//! the rows that the view shows, and copies none.
ghost use Rattle.std.specs.Bool.{OnTrue};
ghost use Rattle.std.specs.Prelude.{◌≡◌, ◌∷◌, [], IfOk, ℕ};
ghost use Rattle.cq_model.specs.declared.query.Source.TheVariants.{View as at_view};
ghost use Rattle.cq_model_state.specs.Fitting.{AreLimited, AreFitting, rows_limit};
ghost use Rattle.cq_model_state.specs.State.{AreNumbered};
ghost use Rattle.cq_engine_answers.specs.Gathered.{AreGathered, made_for};
ghost use Rattle.cq_engine_answers.specs.Lent.{AreInputs, CanAnswer};
ghost use Rattle.cq_engine_answers.specs.Reading.{AreReadable, CanRead, ShowsEachRow};
ghost use Rattle.cq_engine_answers.specs.Selects.{Selects, SelectsLent};
ghost use Rattle.cq_model.specs.Views.{sources_of as named_in};
ghost use Rattle.cq_engine_tables.specs.HeldTables.{tables_of};
ghost use Rattle.cq_engine_tables.specs.Views.{views_of};

use crate::gathered::{Gathered, gather, lend_all, rows_shown, show_fault};
use crate::selection::list_whole;
use crate::widths::widths_of;
use cq_binder_rules::Fault;
use cq_engine_tables::{NamedTable, View};
use cq_model::{Order, Query, Shape, Source};
use cq_model_eval::narrow_is_exact;
use cq_model_laws::{groups_keep_sizes, joined_rows_keep_sizes, meaning_depends_on_sources};
use cq_model_terms::sources_of;
use cq_operators::Exec;
use cq_plan::{chain_of_lists, own_conditions_are_exact, plan};
use cq_table_columns::{Stored, StoredSource, rows_of};
use cq_values::Seq;
use cq_values_rows::RowList;
use cq_views_state::show_whole_rows;
use std::alloc::{AllocError, Global};

/// The listing of a query on the tables and views that it names.
pub fn select_from(
    alloc: Global,
    tables: &[NamedTable],
    views: &[View],
    query: &Query,
    order: &Order,
) -> Result<RowList, Fault>
    requires numbered { (next : ℕ) × AreNumbered (tables_of tables.now) next }
    requires fitting { AreFitting (tables_of tables.now) }
    requires few { AreLimited rows_limit (tables_of tables.now) }
    requires readable { AreReadable (tables_of tables.now) views.now query.now }
    requires can_read { CanRead (tables_of tables.now) (views_of views.now) query.now }
    ensures { Selects (tables_of tables.now) (views_of views.now) query.now order.now result }
{
    match query.first {
        Source::View(place) if shows_each_row(query) => {
            select_view(alloc, tables, views, place, query, order)
        }
        _ => {
            let sources = sources_of(alloc, query)?;
            let gathered = gather(alloc, views, &sources)?;
            select_gathered(alloc, tables, views, query, order, &gathered)
        }
    }
}

/// Whether the query shows each row of its one source.
fn shows_each_row(query: &Query) -> bool
    ensures { OnTrue result (ShowsEachRow query.now) }
{
    query.joins.is_empty()
        && query.filter.is_none()
        && matches!(query.shape, Shape::Plain)
        && !query.distinct
}

/// The listing of what a query shows of each row of a view. Where it shows all columns, the rows themselves are listed.
fn select_view(
    alloc: Global,
    tables: &[NamedTable],
    views: &[View],
    place: u64,
    query: &Query,
    order: &Order,
) -> Result<RowList, Fault>
    requires numbered { (next : ℕ) × AreNumbered (tables_of tables.now) next }
    requires fitting { AreFitting (tables_of tables.now) }
    requires few { AreLimited rows_limit (tables_of tables.now) }
    requires readable { AreReadable (tables_of tables.now) views.now query.now }
    requires can_read { CanRead (tables_of tables.now) (views_of views.now) query.now }
    requires first { query.now.first ≡ at_view place }
    requires each { ShowsEachRow query.now }
    ensures { Selects (tables_of tables.now) (views_of views.now) query.now order.now result }
{
    let rows = rows_shown(alloc, &views[place as usize])?;
    if show_whole_rows(query.items.as_slice(), &rows) {
        return Ok(list_whole(alloc, order, rows)?);
    }
    let gathered = gathered_alone(alloc, query.first, rows)?;
    select_gathered(alloc, tables, views, query, order, &gathered)
}

/// The rows of a view that is read alone, in lists of their own.
fn gathered_alone(alloc: Global, source: Source, rows: RowList) -> Result<Vec<Gathered>, AllocError>
    ensures { IfOk result (λ gathered. gathered.items ≡ made_for source rows ∷ []) }
{
    let shown = Seq::from_vec(rows.into_rows(alloc)?);
    let mut gathered = Vec::new(alloc);
    gathered.push(Gathered { source, shown })?;
    Ok(gathered)
}

/// The listing of a query on the rows of its tables and on those that its views showed.
fn select_gathered(
    alloc: Global,
    tables: &[NamedTable],
    views: &[View],
    query: &Query,
    order: &Order,
    gathered: &[Gathered],
) -> Result<RowList, Fault>
    requires numbered { (next : ℕ) × AreNumbered (tables_of tables.now) next }
    requires fitting { AreFitting (tables_of tables.now) }
    requires readable { AreReadable (tables_of tables.now) views.now query.now }
    requires can_read { CanRead (tables_of tables.now) (views_of views.now) query.now }
    requires gathered { AreGathered views.now (named_in query.now) gathered.now }
    ensures { Selects (tables_of tables.now) (views_of views.now) query.now order.now result }
{
    let lent = lend_all(alloc, tables, gathered)?;
    let sources = sources_of(alloc, query)?;
    let widths = widths_of(alloc, tables, views, &sources)?;
    meaning_depends_on_sources();
    list_answer(alloc, &lent, &widths, query, order)
}

/// The listing of a query on lent rows. Its sources have so many columns each.
fn list_answer(
    alloc: Global,
    lent: &[StoredSource<'_>],
    widths: &[usize],
    query: &Query,
    order: &Order,
) -> Result<RowList, Fault>
    requires { CanAnswer lent.now query.now widths.now }
    ensures { SelectsLent query.now order.now lent.now result }
{
    chain_of_lists();
    narrow_is_exact();
    joined_rows_keep_sizes();
    groups_keep_sizes();
    own_conditions_are_exact();
    let inputs = inputs_of(alloc, lent, query)?;
    let planned = plan(alloc, query, order, widths)?;
    let mut room = RowList::listed(Vec::new(alloc));
    let exec = Exec::open(&planned, &inputs, &mut room);
    match exec.rows(alloc) {
        Ok(rows) => Ok(rows),
        Err(fault) => Err(show_fault(fault)),
    }
}

/// The rows of each source, in the order of FROM.
fn inputs_of<'a>(
    alloc: Global,
    lent: &[StoredSource<'a>],
    query: &Query,
) -> Result<Vec<Stored<'a>>, AllocError>
    ensures { IfOk result (λ inputs. AreInputs lent.now query.now inputs.items) }
{
    let mut inputs: Vec<Stored<'a>> = Vec::new(alloc);
    inputs.push(rows_of(lent, query.first))?;
    for join in query.joins.as_slice() {
        inputs.push(rows_of(lent, join.source))?;
    }
    Ok(inputs)
}
