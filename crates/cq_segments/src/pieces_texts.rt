//! The texts of a column of pieces.
//!
//! They are lent a piece at a time where the column is kept as plain texts, none of which is NULL.
ghost use Rattle.std.specs.Prelude.{IfOk, IfSome, OnOk, take, ◌++◌, ◌≡◌, ◌≤◌};
ghost use Rattle.cq_encodings.specs.AnyEncoded.{encoded_values};
ghost use Rattle.cq_encodings.specs.Texts.{text_values};
ghost use Rattle.cq_segments_pieces.specs.Marked.{rows_of};
ghost use Rattle.cq_segments_pieces.specs.Pieces.{joined};
ghost use Rattle.cq_segments.specs.Texts.{AreTextsAt};
ghost use Rattle.cq_vectors.specs.Gathered.{column_of};
ghost use Rattle.cq_vectors_stored.specs.Columns.{texts_of};

use cq_encodings::AnyEncoded;
use cq_encodings_plain::{Plain, PlainTexts};
use cq_segments_pieces::{Columns, Piece};
use cq_vectors_stored::TextRun;
use std::alloc::{AllocError, Global};

/// The values of a column, where all are texts. None where one stands in no column of plain texts, or is NULL.
pub(crate) fn texts_in_pieces<'a>(
    alloc: Global,
    pieces: &'a [Piece],
    column: usize,
) -> Result<Option<Vec<&'a str>>, AllocError>
    ensures { IfOk result (λ found. IfSome found (λ t. AreTextsAt t.items (rows_of (joined pieces.now)) column)) }
{
    let mut texts: Vec<&'a str> = Vec::new(alloc);
    for piece in pieces {
        let Some(run) = texts_in(piece.columns(), column) else {
            return Ok(None);
        };
        lend_behind(&mut texts, run)?;
    }
    Ok(Some(texts))
}

/// The texts of a column that is kept as plain texts, and of which no value is NULL or left out.
fn texts_in(columns: &Columns, column: usize) -> Option<&TextRun>
    ensures { IfSome result (λ run. text_values run.now ≡ column_of columns.now column) }
{
    match columns.column(column) {
        Some((encoded, part, from)) => {
            let first = part + from;
            if first == 0 {
                plain_texts(encoded, columns.len())
            } else {
                None
            }
        }
        None => None,
    }
}

/// The texts, if they are plain ones.
fn plain_texts(encoded: &AnyEncoded, len: usize) -> Option<&TextRun>
    requires { len ≤ 1024 }
    ensures { IfSome result (λ run. text_values run.now ≡ take 1024 (encoded_values encoded.now)) }
{
    match encoded {
        AnyEncoded::Plain(Plain::Texts(plain)) => whole_texts(plain, len),
        _ => None,
    }
}

/// The texts, if they are so many and none is NULL.
fn whole_texts(plain: &PlainTexts, len: usize) -> Option<&TextRun>
    requires { len ≤ 1024 }
    ensures { IfSome result (λ run. text_values run.now ≡ take 1024 plain.now) }
{
    let (run, nulls) = plain.parts();
    let plane = nulls.plane(0)?;
    if run.len() == len && plane.is_clear() {
        Some(run)
    } else {
        None
    }
}

/// Lends the texts of a run behind the others.
pub(crate) fn lend_behind<'a>(lent: &mut Vec<&'a str>, run: &'a TextRun) -> Result<(), AllocError>
    ensures { OnOk result (texts_of lent.new.items ≡ texts_of lent.old.items ++ run.now) }
{
    lent.reserve(run.len())?;
    for i in 0..run.len() {
        lent.push_reserved(run.get(i));
    }
    Ok(())
}
