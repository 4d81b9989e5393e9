//! The rows of all sources that FROM names: those of a table where they are, and those that a view shows.
//!
//! `gather` makes the rows of the views first, once for each time that FROM names one; `lend_all` then lends them beside
//! those of the tables, which stay where they are. Only rows of views cost memory.
ghost use Rattle.std.specs.Prelude.{◌≡◌, ℕ, IfErr, IfOk, List, OnOk};
ghost use Rattle.std.specs.List.{AllByRecursion};
ghost use Rattle.cq_table_columns.specs.Stored.{all_rows};
ghost use Rattle.cq_model_state.specs.State.{AreNumbered, TableOf, ViewOf};
ghost use Rattle.cq_views.specs.Shown.{AreRowsOf, IsShown};
ghost use Rattle.cq_engine_answers.specs.Reading.{AreViewsThere, IsSourceThere};
ghost use Rattle.cq_engine_answers.specs.Gathered.{AreGathered, AreLent, AreRowsThere, CanLend, HaveColumnsOf, IsBacked, IsBackedAt, IsGatherFault, IsGathered, IsReadFault, IsShowFault};
ghost use Rattle.cq_engine_answers.specs.Selects.{shown_as};
ghost use Rattle.cq_engine_tables.specs.HeldTables.{tables_of};
ghost use Rattle.cq_engine_tables.specs.Views.{views_of};

use cq_binder_rules::Fault;
use cq_engine_tables::{NamedTable, View, place_numbered};
use cq_model::{ShowFault, Source};
use cq_table_columns::{Stored, StoredSource};
use cq_values::{Row, Seq};
use cq_values_rows::RowList;
use std::alloc::{AllocError, Global};

/// A source that FROM names, with the rows that it shows where it is a view. Those of a table stay where they are.
#[derive(Debug, Drop)]
pub(crate) struct Gathered {
    pub source: Source,
    pub shown: Seq<Row>,
}

/// What the views among the sources show.
pub(crate) fn gather(
    alloc: Global,
    views: &[View],
    sources: &[Source],
) -> Result<Vec<Gathered>, Fault>
    requires backed { AllByRecursion (IsBackedAt views.now) sources.now }
    requires there { AreViewsThere (views_of views.now) sources.now }
    ensures ok { IfOk result (λ gathered. AreGathered views.now sources.now gathered.items) }
    ensures fault { IfErr result (IsGatherFault views.now sources.now) }
{
    let mut gathered = Vec::new(alloc);
    for source in sources {
        gathered.push(gather_one(alloc, views, *source)?)?;
    }
    Ok(gathered)
}

fn gather_one(alloc: Global, views: &[View], source: Source) -> Result<Gathered, Fault>
    requires backed { IsBackedAt views.now source }
    requires there { (ts : List TableOf) × IsSourceThere ts (views_of views.now) source }
    ensures ok { IfOk result (IsGathered views.now source) }
    ensures fault { IfErr result (IsReadFault views.now source) }
{
    let shown = match source {
        Source::Table(_) => Seq::new(alloc),
        Source::View(place) => {
            let rows = rows_shown(alloc, &views[place as usize])?;
            Seq::from_vec(rows.into_rows(alloc)?)
        }
    };
    Ok(Gathered { source, shown })
}

/// The rows that a view shows.
pub(crate) fn rows_shown(alloc: Global, view: &View) -> Result<RowList, Fault>
    requires { IsBacked view.now }
    ensures ok { IfOk result (λ rows. AreRowsOf view.now.kept rows) }
    ensures sized { IfOk result (λ rows. HaveColumnsOf view.now.kept rows) }
    ensures range { OnOk result (IsShown view.now.kept) }
    ensures fault { IfErr result (IsShowFault view.now.kept) }
{
    view.rows(alloc).map_err(show_fault)
}

/// Why rows cannot be shown.
pub(crate) fn show_fault(fault: ShowFault) -> Fault
    ensures { result ≡ shown_as fault }
{
    match fault {
        ShowFault::Memory => Fault::Memory,
        ShowFault::SumOutOfRange => Fault::SumOutOfRange,
    }
}

/// The rows of each source that was gathered, lent where they are.
pub(crate) fn lend_all<'a>(
    alloc: Global,
    tables: &'a [NamedTable],
    gathered: &'a [Gathered],
) -> Result<Vec<StoredSource<'a>>, AllocError>
    requires numbered { (next : ℕ) × AreNumbered (tables_of tables.now) next }
    requires there { CanLend (tables_of tables.now) gathered.now }
    ensures { IfOk result (λ lent. AreLent (tables_of tables.now) gathered.now lent.items) }
{
    let mut lent = Vec::new(alloc);
    for one in gathered {
        let source = one.source;
        let rows = rows_there(tables, source, one.shown.as_slice());
        lent.push(StoredSource { source, rows })?;
    }
    Ok(lent)
}

/// The rows of a table where they are, or those that a view showed.
pub fn rows_there<'a>(tables: &'a [NamedTable], source: Source, shown: &'a [Row]) -> Stored<'a>
    requires numbered { (next : ℕ) × AreNumbered (tables_of tables.now) next }
    requires there { (vs : List ViewOf) × IsSourceThere (tables_of tables.now) vs source }
    ensures { AreRowsThere (tables_of tables.now) source shown.now (all_rows result) }
{
    match source {
        Source::Table(number) => tables[place_numbered(tables, number)].table().rows(),
        Source::View(_) => Stored::of(shown),
    }
}
