//! The numbers of a column of stored rows.
//!
//! They are read one by one where the rows stand in columns of plain numbers, and no value is made of them.
ghost use Rattle.std.specs.List.{AllByRecursion};
ghost use Rattle.std.specs.Prelude.{IfOk, IfSome, [], slice_index_or, ◌≡◌};
ghost use Rattle.cq_encodings_plain.specs.Kind.{IsOf, StandsFor};
ghost use Rattle.cq_segments.specs.Numbers.{AreNumbersAt};
ghost use Rattle.cq_segments_pieces.specs.Rows.{row_of, stored_rows};
ghost use Rattle.cq_values.specs.Value.{column as column_at};

use cq_encodings_plain::{Kind, kind_of};
use cq_segments_pieces::{Columns, StoredRow};
use std::alloc::{AllocError, Global};

/// The numbers that stand for the values of a column, and their kind. None where there is no row, one of the values is
/// NULL or of another kind than the first, or stands in no column of plain numbers.
pub(crate) fn numbers_in_column(
    alloc: Global,
    rows: &[StoredRow<'_>],
    column: usize,
) -> Result<Option<(Kind, Vec<i64>)>, AllocError>
    ensures { IfOk result (λ found. IfSome found (λ n. AreNumbersAt n.0 n.1.items (stored_rows rows.now) column)) }
{
    let Some(kind) = kind_in(rows, column) else {
        return Ok(None);
    };
    let mut numbers = Vec::new(alloc);
    numbers.reserve(rows.len())?;
    for row in rows {
        match number_of(row, column) {
            Some((its, number)) if its == kind => numbers.push_reserved(number),
            _ => return Ok(None),
        }
    }
    Ok(Some((kind, numbers)))
}

/// The kind of the value in the first row.
fn kind_in(rows: &[StoredRow<'_>], column: usize) -> Option<Kind> {
    kind_of(&[rows.first()?.lend(column)])
}

/// It is called in one place, so that the loop there has it inside.
#[inline(always)]
fn number_of(row: &StoredRow<'_>, column: usize) -> Option<(Kind, i64)>
    ensures { IfSome result (λ n. StandsFor n.0 n.1 (column_at (row_of row.now) column)) }
{
    match row {
        StoredRow::Alone(_) => None,
        StoredRow::InColumns(columns, place) => number_at(*columns, usize::from(*place), column),
    }
}

#[inline(always)]
fn number_at(columns: &Columns, place: usize, column: usize) -> Option<(Kind, i64)>
    ensures { IfSome result (λ n. StandsFor n.0 n.1 (column_at (slice_index_or columns.now place []) column)) }
{
    match columns.column(column) {
        Some((encoded, part, from)) => if place < columns.len() {
            encoded.number_at(1024 * part + from + place)
        } else {
            None
        },
        None => None,
    }
}
