//! Rows in the order of some columns.
ghost use Rattle.std.specs.List.Sorted.{IsPermutation, IsSorted};
ghost use Rattle.std.specs.Prelude.{IfOk, ◌≡◌};
ghost use Rattle.cq_segments_pieces.specs.Rows.{row_of, stored_rows};
ghost use Rattle.cq_segments.specs.Sorted.{KeepsTies, columns_cmp};

use cq_segments_pieces::StoredRow;
use cq_values::cmp_lent;
use std::alloc::{AllocError, Global};
use std::cmp::Ordering;

/// The rows by the first of the columns, then by the next, and NULL last. Rows that are equal there stay as given.
pub(crate) fn sorted<'a>(
    alloc: Global,
    rows: &[StoredRow<'a>],
    sort: &[usize],
) -> Result<Vec<StoredRow<'a>>, AllocError>
    ensures same { IfOk result (λ s. IsPermutation (stored_rows rows.now) (stored_rows s.items)) }
    ensures sorted { IfOk result (λ s. IsSorted (columns_cmp sort.now) (stored_rows s.items)) }
    ensures ties { IfOk result (λ s. KeepsTies sort.now (stored_rows rows.now) (stored_rows s.items)) }
{
    let mut sorted: Vec<StoredRow<'a>> = Vec::new(alloc);
    sorted.extend_from_slice(rows)?;
    sorted.sort_by(|a, b| cmp_by(sort, a, b))?;
    Ok(sorted)
}

fn cmp_by(sort: &[usize], a: &StoredRow<'_>, b: &StoredRow<'_>) -> Ordering
    ensures { result ≡ columns_cmp sort.now (row_of a.now) (row_of b.now) }
{
    for column in sort {
        let order = cmp_lent(&a.lend(*column), &b.lend(*column));
        if !order.is_eq() {
            return order;
        }
    }
    Ordering::Equal
}
