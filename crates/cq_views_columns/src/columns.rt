//! The columns that a query reads of its sources.
//!
//! [`SourceColumns`] stand in a list, one for each place of FROM; a source that FROM names twice has the same columns at
//! both. The list is made once for a query, by a look through it for each column of each source, and then read only.
ghost use Rattle.std.specs.Prelude.{◌<◌, ◌^◌, ◌≡◌, IfOk, sum};
ghost use Rattle.cq_model.specs.Views.{sources_of};
ghost use Rattle.cq_views_columns.specs.Narrow.{columns_at, columns_read, sources_read};

use crate::reads::is_read;
use cq_model::{Query, Source};
use cq_values::Seq;
use std::alloc::{AllocError, Global};

/// A source, and columns of its rows, rising.
#[derive(Debug, Drop)]
pub struct SourceColumns {
    pub source: Source,
    pub columns: Seq<usize>,
}

/// The columns of a source, by its first entry, and none where there is no entry.
pub(crate) fn columns_at(sources: &[SourceColumns], source: Source) -> &[usize]
    ensures { result.now ≡ columns_at sources.now source }
{
    for entry in sources {
        if entry.source == source {
            return entry.columns.as_slice();
        }
    }
    &[]
}

/// The columns that the query reads of each source.
pub(crate) fn sources_read(
    alloc: Global,
    query: &Query,
    sources: &[Source],
    widths: &[usize],
) -> Result<Vec<SourceColumns>, AllocError>
    requires sources { sources.now ≡ sources_of query.now }
    requires widths { sum widths.now < 2 ^ 64 }
    ensures { IfOk result (λ v. v.items ≡ sources_read query.now widths.now sources.now widths.now) }
{
    let mut all = Vec::new(alloc);
    for (source, wide) in sources.iter().zip(widths) {
        let columns = columns_read(alloc, query, sources, widths, *source, *wide)?;
        all.push(SourceColumns {
            source: *source,
            columns,
        })?;
    }
    Ok(all)
}

/// The columns that the query reads of a source with so many columns.
fn columns_read(
    alloc: Global,
    query: &Query,
    sources: &[Source],
    widths: &[usize],
    source: Source,
    wide: usize,
) -> Result<Seq<usize>, AllocError>
    requires sources { sources.now ≡ sources_of query.now }
    requires widths { sum widths.now < 2 ^ 64 }
    ensures { IfOk result (λ columns. columns ≡ columns_read query.now widths.now source wide) }
{
    let mut columns = Seq::new(alloc);
    for column in 0..wide {
        if is_read(query, sources, widths, source, column) {
            columns.push(column)?;
        }
    }
    Ok(columns)
}
