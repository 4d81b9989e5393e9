//! Texts at some places of a column that is lent.
ghost use Rattle.std.specs.Prelude.{IfOk, length, ◌≡◌, ◌≤◌};
ghost use Rattle.cq_encodings_vectors.specs.Places.{AreBelow, values_at};

use crate::nulls_at::nulls_at;
use crate::offsets_at::offsets_at;
use cq_vectors_stored::Codes;
use std::alloc::{AllocError, Global};

/// The texts of some places by their codes, which are copied.
pub(crate) fn entries_at<'a>(
    alloc: Global,
    texts: &Codes<'a>,
    places: &[u16],
) -> Result<Codes<'a>, AllocError>
    requires few { length places.now ≤ 1024 }
    requires there { AreBelow (length texts.now) places.now }
    ensures { IfOk result (λ found. found ≡ values_at texts.now places.now) }
{
    let (entries, codes) = texts.parts();
    let nulls = texts.nulls();
    let copied = offsets_at(alloc, codes, places)?;
    let flags = nulls_at(nulls, places);
    Codes::own(alloc, entries, copied, flags)
}
