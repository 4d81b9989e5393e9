//! Whether offsets are no greater than a last one, in lanes of their width.
ghost use Rattle.std.specs.Prelude.{length, nat_le, ℕ, ◌≡◌, ◌≤◌};
ghost use Rattle.cq_prims_lanes.specs.UpTo.{known_of, known_up_to};

use crate::known::set_known_by;
use crate::offset::OffsetLanes;
use crate::offset_test::{OffsetTest, UpTo};
use cq_vectors_masks::{Plane, TruthMask};

/// Whether each offset of 8 bits is no greater than the last one, and Unknown where NULL stands.
pub fn set_up_to_8(offsets: &[u8], last: u128, nulls: &Plane, to: &mut TruthMask)
    requires { length nulls.now ≡ length offsets.now }
    ensures { to.new ≡ known_up_to last offsets.now nulls.now }
{
    set_up_to(offsets, last, nulls, to);
}

/// Whether each offset of 16 bits is no greater than the last one, and Unknown where NULL stands.
pub fn set_up_to_16(offsets: &[u16], last: u128, nulls: &Plane, to: &mut TruthMask)
    requires { length nulls.now ≡ length offsets.now }
    ensures { to.new ≡ known_up_to last offsets.now nulls.now }
{
    set_up_to(offsets, last, nulls, to);
}

/// Whether each offset of 32 bits is no greater than the last one, and Unknown where NULL stands.
pub fn set_up_to_32(offsets: &[u32], last: u128, nulls: &Plane, to: &mut TruthMask)
    requires { length nulls.now ≡ length offsets.now }
    ensures { to.new ≡ known_up_to last offsets.now nulls.now }
{
    set_up_to(offsets, last, nulls, to);
}

fn set_up_to<T: OffsetLanes>(offsets: &[T], last: u128, nulls: &Plane, to: &mut TruthMask)
    requires { length nulls.now ≡ length (T.numbers offsets.now) }
    ensures { to.new ≡ known_up_to last (T.numbers offsets.now) nulls.now }
{
    let last = least(last, T::greatest_of(offsets));
    let test = UpTo { last };
    set_known_by(&OffsetTest { offsets, test }, nulls, to);
}

/// The number, or the greatest where that is less.
fn least(last: u128, greatest: u32) -> u32
    ensures few { result ≤ greatest }
    ensures same { (o : ℕ) → o ≤ greatest → nat_le o result ≡ nat_le o last }
{
    if last > u128::from(greatest) {
        return greatest;
    }
    last as u32
}
