//! How far numbers lie above the least of them.
ghost use Rattle.std.specs.Bool.{OnTrue};
ghost use Rattle.std.specs.Prelude.{[], IfOk, IfSome, length, ◌≡◌, ◌≤◌};
ghost use Rattle.cq_encodings_numbers.specs.Packed.{above};
ghost use Rattle.cq_encodings_plain.specs.PackedNumbers.{numbers_in};

use crate::offsets::distance;
use cq_encodings_plain::{FixedWidth, Widths};
use std::alloc::{AllocError, Global};

/// The distances in a list of the width, 8, 16 or 32 bits or else 64. None where one does not fit the width, or a number
/// lies below the least one.
pub(crate) fn distances_at(
    alloc: Global,
    least: i64,
    numbers: &[i64],
    width: u32,
) -> Result<Option<Widths>, AllocError>
    ensures { IfOk result (λ found. IfSome found (λ list. above least (numbers_in list) ≡ numbers.now)) }
{
    match width {
        8 => distances_in::<Vec<u8>>(alloc, least, numbers),
        16 => distances_in::<Vec<u16>>(alloc, least, numbers),
        32 => distances_in::<Vec<u32>>(alloc, least, numbers),
        _ => distances_in::<Vec<u64>>(alloc, least, numbers),
    }
}

fn distances_in<W: FixedWidth>(
    alloc: Global,
    least: i64,
    numbers: &[i64],
) -> Result<Option<Widths>, AllocError>
    ensures { IfOk result (λ found. IfSome found (λ list. above least (numbers_in list) ≡ numbers.now)) }
{
    let mut list = W::with_room(alloc, numbers.len())?;
    if write_distances(least, numbers, &mut list) {
        Ok(Some(list.into_widths()))
    } else {
        Ok(None)
    }
}

/// Writes how far each number lies above the least one, if all of the distances fit.
fn write_distances<W: FixedWidth>(least: i64, numbers: &[i64], to: &mut W) -> bool
    requires empty { W.numbers to.old ≡ [] }
    requires room { length numbers.now ≤ W.room to.old }
    ensures { OnTrue result (above least (W.numbers to.new) ≡ numbers.now) }
{
    for number in numbers {
        let Some(offset) = distance(*number, least) else {
            return false;
        };
        if !to.push_number(offset) {
            return false;
        }
    }
    true
}
