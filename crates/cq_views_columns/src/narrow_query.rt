//! A query, and the columns of its sources that it is over.
//!
//! [`NarrowQuery::of`] is called once, when a view is made. From then on each row of a source is cut to the source's
//! `columns` before `query` sees it, so that a row costs what is read of it, however wide the table is.
ghost use Rattle.std.specs.Prelude.{◌<◌, ◌^◌, ◌≡◌, IfOk, sum};
ghost use Rattle.cq_views_columns.specs.Narrow.{IsNarrowOf, renamed_over};

use crate::columns::{SourceColumns, sources_read};
use crate::laws::renamed_means_same;
use crate::places::places_of;
use crate::renamed::renamed_query;
use cq_model::{Query, Source};
use cq_model_terms::sources_of;
use cq_values::{Seq, both};
use std::alloc::{AllocError, Global};

/// A query over rows that have these columns of the sources' rows alone.
#[derive(Debug, Drop)]
pub struct NarrowQuery {
    pub query: Query,
    /// The columns of each source, in the order of FROM.
    pub columns: Seq<SourceColumns>,
}

impl NarrowQuery {
    /// The query over the columns that it reads. The rows of what FROM names have so many columns, in its order.
    pub fn of(alloc: Global, query: &Query, widths: &[usize]) -> Result<NarrowQuery, AllocError>
        requires { sum widths.now < 2 ^ 64 }
        ensures { IfOk result (IsNarrowOf query.now widths.now) }
    {
        renamed_means_same();
        let sources = sources_of(alloc, query)?;
        let columns = sources_read(alloc, query, &sources, widths)?;
        let query = renamed_over(alloc, query, &sources, widths, &columns);
        let (columns, query) = both(columns, query)?;
        Ok(NarrowQuery {
            query,
            columns: Seq::from_vec(columns),
        })
    }
}

/// The query with its columns renamed to where they stand among these.
fn renamed_over(
    alloc: Global,
    query: &Query,
    sources: &[Source],
    widths: &[usize],
    columns: &[SourceColumns],
) -> Result<Query, AllocError>
    requires { sum widths.now < 2 ^ 64 }
    ensures { IfOk result (λ q. q ≡ renamed_over query.now sources.now widths.now columns.now) }
{
    let places = places_of(alloc, columns, sources, widths)?;
    renamed_query(alloc, query, &places, columns)
}
