//! The values of a column of stored rows.
//!
//! A text that stands in a column of plain texts is taken from there at once.
ghost use Rattle.std.specs.Prelude.{IfOk, IfSome, [], map, slice_index_or, ◌≡◌};
ghost use Rattle.cq_encodings.specs.AnyEncoded.{encoded_values};
ghost use Rattle.cq_segments_pieces.specs.Rows.{row_of, stored_rows};
ghost use Rattle.cq_values.specs.Lent.{owned};
ghost use Rattle.cq_values.specs.Value.{column as column_at};
ghost use Rattle.cq_values.specs.declared.value.Value.TheVariants.{Null, Text};
ghost use Rattle.cq_vectors.specs.Gathered.{column_of};

use crate::columns::Columns;
use crate::stored_row::StoredRow;
use cq_encodings::AnyEncoded;
use cq_encodings_plain::{Plain, PlainTexts};
use cq_values::Lent;
use std::alloc::{AllocError, Global};

/// The values of a column where they stand.
pub fn lend_column<'a>(
    alloc: Global,
    rows: &[StoredRow<'a>],
    column: usize,
) -> Result<Vec<Lent<'a>>, AllocError>
    ensures { IfOk result (λ lent. map owned lent.items ≡ column_of (stored_rows rows.now) column) }
{
    let mut lent: Vec<Lent<'a>> = Vec::new(alloc);
    lent.reserve(rows.len())?;
    for row in rows {
        lent.push_reserved(lend(row, column));
    }
    Ok(lent)
}

#[inline(always)]
fn lend<'a>(row: &StoredRow<'a>, column: usize) -> Lent<'a>
    ensures { owned result ≡ column_at (row_of row.now) column }
{
    match text_of(row, column) {
        Some(text) => Lent::Text(text),
        None => row.lend(column),
    }
}

/// The text in a column, if it is one and the column is kept as plain texts.
#[inline(always)]
fn text_of<'a>(row: &StoredRow<'a>, column: usize) -> Option<&'a str>
    ensures { IfSome result (λ text. Text text.now ≡ column_at (row_of row.now) column) }
{
    match row {
        StoredRow::Alone(_) => None,
        StoredRow::InColumns(columns, place) => text_at(*columns, usize::from(*place), column),
    }
}

#[inline(always)]
fn text_at<'a>(columns: &'a Columns, place: usize, column: usize) -> Option<&'a str>
    ensures { IfSome result (λ text. Text text.now ≡ column_at (slice_index_or columns.now place []) column) }
{
    match columns.column(column) {
        Some((encoded, part, from)) => if place < columns.len() {
            plain_text(encoded, 1024 * part + from + place)
        } else {
            None
        },
        None => None,
    }
}

#[inline(always)]
fn plain_text(encoded: &AnyEncoded, place: usize) -> Option<&str>
    ensures { IfSome result (λ text. Text text.now ≡ slice_index_or (encoded_values encoded.now) place Null) }
{
    match encoded {
        AnyEncoded::Plain(Plain::Texts(texts)) => text_in(texts, place),
        _ => None,
    }
}

#[inline(always)]
fn text_in(texts: &PlainTexts, place: usize) -> Option<&str>
    ensures { IfSome result (λ text. Text text.now ≡ slice_index_or texts.now place Null) }
{
    let (run, nulls) = texts.parts();
    if place >= run.len() || nulls.at(place) {
        None
    } else {
        Some(run.get(place))
    }
}
