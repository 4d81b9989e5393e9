//! Days at some places of a column that is lent.
ghost use Rattle.std.specs.Prelude.{IfOk, IfSome, length, pos, ◌+ℤ◌, ◌≡◌, ◌≤◌};
ghost use Rattle.cq_encodings_vectors.specs.Places.{AreBelow, raised_at, values_at};
ghost use Rattle.cq_values.specs.Days.{IsDay};
ghost use Rattle.cq_vectors_stored.specs.LentColumns.{DaysAbove};
ghost use Rattle.cq_vectors_stored.specs.Offsets.{offsets_in};

use crate::nulls_at::nulls_at;
use crate::widths::{Fours, Ones, Twos, Width};
use cq_vectors::Days;
use cq_vectors_stored::{NarrowDays, Offsets};
use std::alloc::{AllocError, Global};

/// The days of some places above a base, or None where NULL stands anywhere.
pub(crate) fn days_at(
    alloc: Global,
    days: &NarrowDays<'_>,
    places: &[u16],
) -> Result<Option<Days>, AllocError>
    requires few { length places.now ≤ 1024 }
    requires there { AreBelow (length days.now) places.now }
    ensures { IfOk result (λ found. IfSome found (λ f. f ≡ values_at days.now places.now)) }
{
    let nulls = days.nulls();
    if !nulls.is_clear() {
        return Ok(None);
    }
    let (base, offsets) = days.parts();
    let values = days_above(alloc, base, offsets, places)?;
    let flags = nulls_at(nulls, places);
    Ok(Some(Days::new(values, flags)))
}

/// The days of some places, whatever the width of the offsets.
pub(crate) fn days_above(
    alloc: Global,
    base: i32,
    offsets: Offsets<'_>,
    places: &[u16],
) -> Result<Vec<i32>, AllocError>
    requires there { AreBelow (length (offsets_in offsets)) places.now }
    requires fit { DaysAbove base (offsets_in offsets) }
    ensures { IfOk result (λ v. v.items ≡ raised_at base (offsets_in offsets.entry) places.now) }
{
    match offsets {
        Offsets::One(offsets) => each_day::<Ones<'_>>(alloc, base, &Ones { offsets }, places),
        Offsets::Two(offsets) => each_day::<Twos<'_>>(alloc, base, &Twos { offsets }, places),
        Offsets::Four(offsets) => each_day::<Fours<'_>>(alloc, base, &Fours { offsets }, places),
    }
}

fn each_day<W: Width>(
    alloc: Global,
    base: i32,
    offsets: &W,
    places: &[u16],
) -> Result<Vec<i32>, AllocError>
    requires there { AreBelow (length (W.numbers offsets.now)) places.now }
    requires fit { DaysAbove base (W.numbers offsets.now) }
    ensures { IfOk result (λ v. v.items ≡ raised_at base (W.numbers offsets.now) places.now) }
{
    let mut values = Vec::new(alloc);
    values.reserve(places.len())?;
    for place in places {
        values.push_reserved(day_above(base, offsets.at(usize::from(*place))));
    }
    Ok(values)
}

/// The number of the day at an offset.
fn day_above(base: i32, offset: u32) -> i32
    requires { IsDay (base +ℤ pos offset) }
    ensures { result ≡ base +ℤ pos offset }
{
    (i64::from(base) + i64::from(offset)) as i32
}
