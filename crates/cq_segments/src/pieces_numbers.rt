//! The numbers of a column of pieces.
//!
//! They are copied a piece at a time where the column is kept as plain numbers, none of which is NULL.
ghost use Rattle.std.specs.Bool.{OnTrue};
ghost use Rattle.std.specs.List.{AllByRecursion};
ghost use Rattle.std.specs.Prelude.{IfOk, IfSome, take, ◌≡◌, ◌≤◌};
ghost use Rattle.cq_encodings.specs.AnyEncoded.{encoded_values};
ghost use Rattle.cq_encodings_plain.specs.Kind.{IsOf, number_values};
ghost use Rattle.cq_segments.specs.Numbers.{AreNumbersIn};
ghost use Rattle.cq_vectors.specs.Gathered.{column_of};

use cq_encodings::AnyEncoded;
use cq_encodings_plain::{Kind, Plain, PlainNumbers, is_of};
use cq_segments_pieces::{Columns, Piece};
use std::alloc::{AllocError, Global};

/// The numbers that stand for the values of a column, and their kind. None where there is no piece, a value is NULL or
/// of another kind than those of the first piece, or stands in no column of plain numbers.
pub(crate) fn numbers_in_pieces(
    alloc: Global,
    pieces: &[Piece],
    column: usize,
) -> Result<Option<(Kind, Vec<i64>)>, AllocError>
    ensures { IfOk result (λ found. IfSome found (AreNumbersIn pieces.now column)) }
{
    let Some(kind) = kind_in(pieces, column) else {
        return Ok(None);
    };
    let mut numbers = Vec::new(alloc);
    for piece in pieces {
        match numbers_in(piece.columns(), column) {
            Some((its, more)) if its == kind => numbers.extend_from_slice(more)?,
            _ => return Ok(None),
        }
    }
    if are_of(kind, &numbers) {
        Ok(Some((kind, numbers)))
    } else {
        Ok(None)
    }
}

/// The kind of the numbers in the first piece.
fn kind_in(pieces: &[Piece], column: usize) -> Option<Kind> {
    let (kind, _) = numbers_in(pieces.first()?.columns(), column)?;
    Some(kind)
}

/// The numbers of a column that is kept as plain numbers, and of which no value is NULL or left out.
fn numbers_in(columns: &Columns, column: usize) -> Option<(Kind, &[i64])>
    ensures { IfSome result (λ n. number_values n.0 n.1.now ≡ column_of columns.now column) }
{
    match columns.column(column) {
        Some((encoded, part, from)) => {
            let first = part + from;
            if first == 0 {
                plain_numbers(encoded, columns.len())
            } else {
                None
            }
        }
        None => None,
    }
}

/// The numbers, if they are plain ones.
fn plain_numbers(encoded: &AnyEncoded, len: usize) -> Option<(Kind, &[i64])>
    requires { len ≤ 1024 }
    ensures { IfSome result (λ n. number_values n.0 n.1.now ≡ take 1024 (encoded_values encoded.now)) }
{
    match encoded {
        AnyEncoded::Plain(Plain::Numbers(plain)) => whole_numbers(plain, len),
        _ => None,
    }
}

/// The numbers, if they are so many and none is NULL.
fn whole_numbers(plain: &PlainNumbers, len: usize) -> Option<(Kind, &[i64])>
    requires { len ≤ 1024 }
    ensures { IfSome result (λ n. number_values n.0 n.1.now ≡ take 1024 plain.now) }
{
    let (kind, numbers, nulls) = plain.parts();
    let plane = nulls.plane(0)?;
    if numbers.len() == len && plane.is_clear() {
        Some((kind, numbers))
    } else {
        None
    }
}

/// Whether each of the numbers stands for something of the kind.
fn are_of(kind: Kind, numbers: &[i64]) -> bool
    ensures { OnTrue result (AllByRecursion (IsOf kind) numbers.now) }
{
    for number in numbers {
        if !is_of(kind, *number) {
            return false;
        }
    }
    true
}
