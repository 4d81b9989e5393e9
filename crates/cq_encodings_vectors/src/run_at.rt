//! Texts of a run at some places of a column that is lent.
ghost use Rattle.std.specs.Prelude.{IfOk, length, ◌+◌, ◌<◌, ◌≡◌, ◌≤◌};
ghost use Rattle.cq_encodings_vectors.specs.Places.{AreBelow, run_at_places, text_of_place, values_at};
ghost use Rattle.cq_vectors_stored.specs.Columns.{texts_of};

use crate::nulls_at::nulls_at;
use cq_vectors::Texts;
use cq_vectors_masks::Plane;
use cq_vectors_stored::{RunTexts, TextRun};
use std::alloc::{AllocError, Global};

pub(crate) fn run_at<'a>(
    alloc: Global,
    column: &RunTexts<'a>,
    places: &[u16],
) -> Result<Texts<'a>, AllocError>
    requires few { length places.now ≤ 1024 }
    requires there { AreBelow (length column.now) places.now }
    ensures { IfOk result (λ texts. texts ≡ values_at column.now places.now) }
{
    let (texts, start) = column.parts();
    let nulls = column.nulls();
    let lent = lent_texts(alloc, texts, start, nulls, places)?;
    let flags = nulls_at(nulls, places);
    Ok(Texts::new(lent, flags))
}

/// The texts of some places where they stand.
fn lent_texts<'a>(
    alloc: Global,
    texts: &'a TextRun,
    start: usize,
    nulls: &Plane,
    places: &[u16],
) -> Result<Vec<&'a str>, AllocError>
    requires few { length nulls.now ≤ 1024 }
    requires part { start + length nulls.now ≤ length texts.now }
    requires there { AreBelow (length nulls.now) places.now }
    ensures { IfOk result (λ l. texts_of l.items ≡ run_at_places texts.now start nulls.now places.now) }
{
    let mut lent: Vec<&'a str> = Vec::new(alloc);
    lent.reserve(places.len())?;
    for place in places {
        lent.push_reserved(lent_text(texts, start, nulls, usize::from(*place)));
    }
    Ok(lent)
}

/// The text of a place, and an empty one where NULL stands.
fn lent_text<'a>(texts: &'a TextRun, start: usize, nulls: &Plane, place: usize) -> &'a str
    requires few { place < 1024 }
    requires there { start + place < length texts.now }
    ensures { result.now ≡ text_of_place texts.now start nulls.now place }
{
    let _len = texts.len();
    if nulls.get(place) {
        return "";
    }
    texts.get(start + place)
}
