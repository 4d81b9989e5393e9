//! Numbers as offsets from the least of them.
ghost use Rattle.std.specs.Prelude.{[], IfOk, IfSome, length, pos, true, ◌+ℤ◌, ◌≡◌, ◌≤◌};
ghost use Rattle.cq_encodings_numbers.specs.Packed.{AreOffsetsOf, HaveOffsets, IsOffset};
ghost use Rattle.cq_encodings_plain.specs.Kind.{IsOf};

use cq_encodings_plain::{FixedWidth, Kind, Widths, number_of};
use cq_values::Lent;
use std::alloc::{AllocError, Global};

/// The offsets in a list of the width, 8, 16 or 32 bits or else 64, and whether NULL stands anywhere. None where a value
/// has no offset of the width.
pub(crate) fn offsets_at(
    alloc: Global,
    kind: Kind,
    least: i64,
    values: &[Lent<'_>],
    width: u32,
) -> Result<Option<(Widths, bool)>, AllocError>
    requires { IsOf kind least }
    ensures { IfOk result (λ found. IfSome found (λ parts. HaveOffsets kind least parts values.now)) }
{
    match width {
        8 => offsets_in::<Vec<u8>>(alloc, kind, least, values),
        16 => offsets_in::<Vec<u16>>(alloc, kind, least, values),
        32 => offsets_in::<Vec<u32>>(alloc, kind, least, values),
        _ => offsets_in::<Vec<u64>>(alloc, kind, least, values),
    }
}

fn offsets_in<W: FixedWidth>(
    alloc: Global,
    kind: Kind,
    least: i64,
    values: &[Lent<'_>],
) -> Result<Option<(Widths, bool)>, AllocError>
    requires { IsOf kind least }
    ensures { IfOk result (λ found. IfSome found (λ parts. HaveOffsets kind least parts values.now)) }
{
    let mut offsets = W::with_room(alloc, values.len())?;
    match write_offsets(kind, least, values, &mut offsets) {
        Some(any_null) => Ok(Some((offsets.into_widths(), any_null))),
        None => Ok(None),
    }
}

/// Writes how far each value lies above the least one, and 0 for NULL. Tells whether NULL stands anywhere, or None where
/// a value has no offset that fits.
fn write_offsets<W: FixedWidth>(
    kind: Kind,
    least: i64,
    values: &[Lent<'_>],
    to: &mut W,
) -> Option<bool>
    requires least { IsOf kind least }
    requires empty { W.numbers to.old ≡ [] }
    requires room { length values.now ≤ W.room to.old }
    ensures { IfSome result (λ any. AreOffsetsOf kind least (W.numbers to.new) any values.now) }
{
    let mut any_null = false;
    for value in values {
        let offset = offset_of(kind, value, least)?;
        if !to.push_number(offset) {
            return None;
        }
        any_null |= value.is_null();
    }
    Some(any_null)
}

/// How far a value lies above the least one, and 0 of NULL.
fn offset_of(kind: Kind, value: &Lent<'_>, least: i64) -> Option<u64>
    requires { IsOf kind least }
    ensures { IfSome result (λ offset. IsOffset kind least value.now offset) }
{
    match number_of(kind, value, least) {
        Some(number) => distance(number, least),
        None => None,
    }
}

/// How far a number lies above another, or None where it lies below.
pub(crate) fn distance(number: i64, least: i64) -> Option<u64>
    ensures { IfSome result (λ offset. least +ℤ pos offset ≡ number) }
{
    if number < least {
        None
    } else {
        Some(number.wrapping_sub(least).cast_unsigned())
    }
}
