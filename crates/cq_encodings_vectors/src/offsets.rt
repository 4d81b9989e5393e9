//! Numbers of a part, or of a whole column, in the width that they are kept in.
ghost use Rattle.std.specs.Prelude.{IfSome, length, ◌*◌, ◌≡◌, ◌≤◌};
ghost use Rattle.cq_encodings_vectors.specs.Parts.{items_of};
ghost use Rattle.cq_vectors_stored.specs.Offsets.{offsets_in};

use cq_encodings_plain::{PackedNumbers, Widths};
use cq_vectors_stored::Offsets;

/// The numbers where they stand, or None where they are not 8, 16 or 32 bits wide.
pub(crate) fn lend_offsets(numbers: &PackedNumbers, k: usize) -> Option<Offsets<'_>>
    requires { 1024 * k ≤ length numbers.now }
    ensures { IfSome result (λ offsets. offsets_in offsets ≡ items_of k numbers.now) }
{
    let len = numbers.len();
    let start = 1024 * k;
    let end = start + (len - start).min(1024);
    match numbers.widths() {
        Widths::One(ones) => Some(Offsets::One(&ones[start..end])),
        Widths::Two(twos) => Some(Offsets::Two(&twos[start..end])),
        Widths::Four(fours) => Some(Offsets::Four(&fours[start..end])),
        _ => None,
    }
}

/// All numbers where they stand, or None where they are not 8, 16 or 32 bits wide.
pub(crate) fn all_offsets(numbers: &PackedNumbers) -> Option<Offsets<'_>>
    ensures { IfSome result (λ offsets. offsets_in offsets ≡ numbers.now) }
{
    match numbers.widths() {
        Widths::One(ones) => Some(Offsets::One(ones.as_slice())),
        Widths::Two(twos) => Some(Offsets::Two(twos.as_slice())),
        Widths::Four(fours) => Some(Offsets::Four(fours.as_slice())),
        _ => None,
    }
}
