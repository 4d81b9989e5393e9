//! The values of a column of rows.
ghost use Rattle.std.specs.Prelude.{IfOk, IfSome, length, ◌≡◌, ◌≤◌};
ghost use Rattle.cq_segments_pieces.specs.Rows.{LendAll, stored_rows};
ghost use Rattle.cq_vectors.specs.Gathered.{column_of};

use cq_encodings_vectors::narrowed;
use cq_segments_pieces::{StoredRow, lend_column};
use cq_values::Row;
use cq_vectors::Vector;
use std::alloc::{AllocError, Global};

/// The values of a column of rows, where a row that is too short has NULL.
pub fn gather<'a>(
    alloc: Global,
    rows: &[StoredRow<'a>],
    column: usize,
) -> Result<Vector<'a>, AllocError>
    requires { length rows.now ≤ 1024 }
    ensures { IfOk result (λ vector. vector ≡ column_of (stored_rows rows.now) column) }
{
    if let Some(alone) = lend_alone(alloc, rows)? {
        return Vector::gather_lent(alloc, alone.as_slice(), column);
    }
    let lent = lend_column(alloc, rows, column)?;
    let form = narrowed(alloc, lent)?;
    Ok(Vector::new(form))
}

/// The rows, or None where one does not stand alone.
fn lend_alone<'a>(alloc: Global, rows: &[StoredRow<'a>]) -> Result<Option<Vec<&'a Row>>, AllocError>
    ensures { IfOk result (λ found. IfSome found (λ lent. LendAll rows.now lent.items)) }
{
    let mut lent: Vec<&'a Row> = Vec::new(alloc);
    lent.reserve(rows.len())?;
    for row in rows {
        match row {
            StoredRow::Alone(row) => lent.push_reserved(*row),
            StoredRow::InColumns(..) => return Ok(None),
        }
    }
    Ok(Some(lent))
}
