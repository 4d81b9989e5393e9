//! Numbers and days of a whole column at some places.
ghost use Rattle.std.specs.Int.{w64};
ghost use Rattle.std.specs.Prelude.{IfOk, IfSome, length, pos, ◌≡◌, ◌≤◌};
ghost use Rattle.std.specs.Simd.Lanes.{zip2};
ghost use Rattle.cq_encodings_plain.specs.Nulls.{NothingWhere};
ghost use Rattle.cq_encodings_vectors.specs.Places.{AreBelow, AreDaysAt, AreThose, HoldsThose};
ghost use Rattle.cq_vectors_stored.specs.Columns.{number_unless};
ghost use Rattle.cq_vectors_stored.specs.LentColumns.{DaysAbove, FitAbove, numbers_above};
ghost use Rattle.cq_vectors_stored.specs.Offsets.{offsets_in};

use crate::column_nulls::flags_of;
use crate::days_at::days_above;
use crate::numbers::fit_all;
use crate::offsets::all_offsets;
use crate::offsets_at::offsets_at;
use crate::places::copies_at;
use cq_encodings::Packed;
use cq_encodings_plain::{Kind, Nulls, PlainNumbers};
use cq_vectors::{Days, Form, Numbers};
use cq_vectors_stored::{Narrow, Offsets};
use std::alloc::{AllocError, Global};

/// What lies above the least one at some places, or None of offsets that are not lent, and of days that are not copied.
pub(crate) fn packed_at<'a>(
    alloc: Global,
    packed: &Packed,
    places: &[u16],
) -> Result<Option<Form<'a>>, AllocError>
    requires few { length places.now ≤ 1024 }
    requires there { AreBelow (length packed.now) places.now }
    ensures { IfOk result (λ found. IfSome found (HoldsThose packed.now places.now)) }
{
    let (kind, least, offsets, nulls) = packed.parts();
    let Some(offsets) = all_offsets(offsets) else {
        return Ok(None);
    };
    match kind {
        Kind::Numbers => {
            let numbers = narrow_at(alloc, least, offsets, nulls, places)?;
            Ok(Some(Form::Narrow(numbers)))
        }
        Kind::Days => match clear_days_at(alloc, least, offsets, nulls, places)? {
            Some(days) => Ok(Some(Form::Days(days))),
            None => Ok(None),
        },
    }
}

/// Numbers above a base, whose offsets are copied.
fn narrow_at<'a>(
    alloc: Global,
    base: i64,
    offsets: Offsets<'_>,
    nulls: &Nulls,
    places: &[u16],
) -> Result<Narrow<'a>, AllocError>
    requires few { length places.now ≤ 1024 }
    requires there { AreBelow (length (offsets_in offsets)) places.now }
    requires long { length nulls.now ≡ length (offsets_in offsets) }
    requires clear { NothingWhere 0 nulls.now (offsets_in offsets) }
    requires fit { FitAbove base (offsets_in offsets) }
    ensures { IfOk result (AreThose (numbers_above base (offsets_in offsets.entry) nulls.now) places.now) }
{
    let flags = flags_of(nulls, offsets.len(), places);
    let copied = offsets_at(alloc, offsets, places)?;
    Narrow::own(alloc, base, copied, flags)
}

/// Days above one, or None where its number does not fit 32 bits, or NULL stands at one of the places.
fn clear_days_at(
    alloc: Global,
    base: i64,
    offsets: Offsets<'_>,
    nulls: &Nulls,
    places: &[u16],
) -> Result<Option<Days>, AllocError>
    requires few { length places.now ≤ 1024 }
    requires there { AreBelow (length (offsets_in offsets)) places.now }
    requires long { length nulls.now ≡ length (offsets_in offsets) }
    requires fit { DaysAbove base (offsets_in offsets) }
    ensures { IfOk result (λ d. IfSome d (AreDaysAt base (offsets_in offsets.entry) nulls.now places.now)) }
{
    let flags = flags_of(nulls, offsets.len(), places);
    match i32::try_from(base) {
        Ok(number) if flags.is_clear() => {
            let values = days_above(alloc, number, offsets, places)?;
            Ok(Some(Days::new(values, flags)))
        }
        _ => Ok(None),
    }
}

/// Numbers of 64 bits at some places, or None where they are those of days.
pub(crate) fn plain_at<'a>(
    alloc: Global,
    plain: &PlainNumbers,
    places: &[u16],
) -> Result<Option<Form<'a>>, AllocError>
    requires few { length places.now ≤ 1024 }
    requires there { AreBelow (length plain.now) places.now }
    ensures { IfOk result (λ found. IfSome found (HoldsThose plain.now places.now)) }
{
    let (kind, numbers, nulls) = plain.parts();
    match kind {
        Kind::Numbers => {
            let copied = wide_at(alloc, numbers, nulls, places)?;
            Ok(Some(Form::Numbers(copied)))
        }
        Kind::Days => Ok(None),
    }
}

/// Numbers that are copied, with their flags.
fn wide_at(
    alloc: Global,
    numbers: &[i64],
    nulls: &Nulls,
    places: &[u16],
) -> Result<Numbers, AllocError>
    requires few { length places.now ≤ 1024 }
    requires there { AreBelow (length numbers.now) places.now }
    requires long { length nulls.now ≡ length numbers.now }
    requires clear { NothingWhere (pos 0) nulls.now numbers.now }
    ensures { IfOk result (AreThose (zip2 number_unless numbers.now nulls.now) places.now) }
{
    let flags = flags_of(nulls, numbers.len(), places);
    let copied = copies_at(alloc, numbers, places)?;
    fit_all(&copied);
    Ok(Numbers::new(copied, flags))
}
