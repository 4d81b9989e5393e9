//! Numbers at some places of a column that is lent.
ghost use Rattle.std.specs.Prelude.{IfOk, length, ◌≡◌, ◌≤◌};
ghost use Rattle.cq_encodings_vectors.specs.Places.{AreBelow, values_at};

use crate::nulls_at::nulls_at;
use crate::offsets_at::offsets_at;
use crate::places::copies_at;
use cq_vectors::Numbers;
use cq_vectors_stored::{LentNumbers, Narrow};
use std::alloc::{AllocError, Global};

/// The numbers of some places.
pub(crate) fn numbers_at(
    alloc: Global,
    numbers: &LentNumbers<'_>,
    places: &[u16],
) -> Result<Numbers, AllocError>
    requires few { length places.now ≤ 1024 }
    requires there { AreBelow (length numbers.now) places.now }
    ensures { IfOk result (λ found. found ≡ values_at numbers.now places.now) }
{
    let nulls = numbers.nulls();
    let values = copies_at(alloc, numbers.values(), places)?;
    let flags = nulls_at(nulls, places);
    Ok(Numbers::new(values, flags))
}

/// The numbers of some places above a base, whose offsets are copied.
pub(crate) fn above_at<'a>(
    alloc: Global,
    numbers: &Narrow<'_>,
    places: &[u16],
) -> Result<Narrow<'a>, AllocError>
    requires few { length places.now ≤ 1024 }
    requires there { AreBelow (length numbers.now) places.now }
    ensures { IfOk result (λ found. found ≡ values_at numbers.now places.now) }
{
    let (base, offsets) = numbers.parts();
    let nulls = numbers.nulls();
    let copied = offsets_at(alloc, offsets, places)?;
    let flags = nulls_at(nulls, places);
    Narrow::own(alloc, base, copied, flags)
}
