//! The rows that a view is built from.
ghost use Rattle.std.specs.Prelude.{◌≡◌, ℕ, IfOk, List, OnOk};
ghost use Rattle.cq_model.specs.Views.{sources_of};
ghost use Rattle.cq_model_state.specs.State.{AreNumbered, ViewOf};
ghost use Rattle.cq_engine_answers.specs.Reading.{AreTablesThere, IsSourceThere};
ghost use Rattle.cq_engine_tables.specs.HeldTables.{tables_of};
ghost use Rattle.cq_engine.specs.Gathering.{AreGathered, AreGatheredFor, PutsSource, is_gathered};

use cq_engine_answers::rows_there;
use cq_engine_tables::NamedTable;
use cq_model::{Query, Source};
use cq_model_terms::sources_of;
use cq_table_columns::StoredSource;
use std::alloc::{AllocError, Global};

/// The rows of each table that FROM names, where they are.
pub(crate) fn gathered_rows<'a>(
    alloc: Global,
    tables: &'a [NamedTable],
    query: &Query,
) -> Result<Vec<StoredSource<'a>>, AllocError>
    requires numbered { (next : ℕ) × AreNumbered (tables_of tables.now) next }
    requires there { AreTablesThere (tables_of tables.now) (sources_of query.now) }
    ensures { IfOk result (λ gathered. AreGatheredFor tables.now query.now gathered.items) }
{
    let sources = sources_of(alloc, query)?;
    gather_all(alloc, tables, &sources)
}

/// The rows of these sources. A table that stands among them twice has one entry.
fn gather_all<'a>(
    alloc: Global,
    tables: &'a [NamedTable],
    sources: &[Source],
) -> Result<Vec<StoredSource<'a>>, AllocError>
    requires numbered { (next : ℕ) × AreNumbered (tables_of tables.now) next }
    requires there { AreTablesThere (tables_of tables.now) sources.now }
    ensures { IfOk result (λ gathered. AreGathered (tables_of tables.now) sources.now gathered.items) }
{
    let mut gathered = Vec::new(alloc);
    for source in sources {
        gather(tables, *source, &mut gathered)?;
    }
    Ok(gathered)
}

/// Puts the rows of a source behind the others, if they were not gathered yet.
fn gather<'a>(
    tables: &'a [NamedTable],
    source: Source,
    gathered: &mut Vec<StoredSource<'a>>,
) -> Result<(), AllocError>
    requires numbered { (next : ℕ) × AreNumbered (tables_of tables.now) next }
    requires there { (views : List ViewOf) × IsSourceThere (tables_of tables.now) views source }
    ensures { OnOk result (PutsSource tables.now source gathered.old gathered.new) }
{
    if is_gathered(gathered, source) {
        return Ok(());
    }
    let rows = rows_there(tables, source, &[]);
    gathered.push(StoredSource { source, rows })?;
    Ok(())
}

/// Whether the rows of a source were gathered.
fn is_gathered(gathered: &[StoredSource], source: Source) -> bool
    ensures { result ≡ is_gathered gathered.now source }
{
    gathered.iter().any(|entry| entry.source == source)
}
