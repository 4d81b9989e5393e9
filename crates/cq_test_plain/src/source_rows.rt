//! The rows of sources.
ghost use Rattle.std.specs.Prelude.{◌≡◌, []};
ghost use Rattle.cq_test_plain.specs.SourceRows.{rows_or};

use cq_model::Source;
use cq_values::Row;

/// The rows of a source, where they are.
#[derive(Clone, Copy, Debug)]
pub struct Lent<'a> {
    pub source: Source,
    pub rows: &'a [Row],
}

/// The rows of the first entry of a source, and no row where there is none.
pub fn rows_of<'a>(sources: &[Lent<'a>], source: Source) -> &'a [Row]
    ensures { result.now ≡ rows_or sources.now source [] }
{
    for lent in sources {
        if lent.source == source {
            return lent.rows;
        }
    }
    &[]
}
