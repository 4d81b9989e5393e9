//! The stored rows of sources.
//!
//! A query is handed a list of these, one for each table or view that it reads; [`rows_of`] looks one up from the
//! front.
ghost use Rattle.std.specs.Prelude.{◌≡◌, []};
ghost use Rattle.cq_table_columns.specs.Stored.{all_rows};
ghost use Rattle.cq_table_columns.specs.Sources.{rows_or};

use crate::stored::Stored;
use cq_model::Source;

/// The rows of a source, where they are stored.
#[derive(Clone, Copy)]
pub struct StoredSource<'a> {
    pub source: Source,
    pub rows: Stored<'a>,
}

/// The rows of the first entry of a source, and no row where there is none.
pub fn rows_of<'a>(sources: &[StoredSource<'a>], source: Source) -> Stored<'a>
    ensures { all_rows result ≡ rows_or sources.now source [] }
{
    for stored in sources {
        if stored.source == source {
            return stored.rows;
        }
    }
    Stored::of(&[])
}
