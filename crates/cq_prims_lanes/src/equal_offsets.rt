//! Whether offsets are one number, in lanes of their width.
ghost use Rattle.std.specs.Prelude.{length, nat_eq, ◌≡◌};
ghost use Rattle.cq_prims_lanes.specs.UpTo.{known_of};

use crate::known::{set_known_by, set_never};
use crate::offset::OffsetLanes;
use crate::offset_test::{Equal, OffsetTest};
use cq_vectors_masks::{Plane, TruthMask};

/// Whether each offset of 8 bits is the number, and Unknown where NULL stands.
pub fn set_equal_8(offsets: &[u8], offset: u128, nulls: &Plane, to: &mut TruthMask)
    requires { length nulls.now ≡ length offsets.now }
    ensures { to.new ≡ known_of (λ o. nat_eq o offset) offsets.now nulls.now }
{
    set_equal(offsets, offset, nulls, to);
}

/// Whether each offset of 16 bits is the number, and Unknown where NULL stands.
pub fn set_equal_16(offsets: &[u16], offset: u128, nulls: &Plane, to: &mut TruthMask)
    requires { length nulls.now ≡ length offsets.now }
    ensures { to.new ≡ known_of (λ o. nat_eq o offset) offsets.now nulls.now }
{
    set_equal(offsets, offset, nulls, to);
}

/// Whether each offset of 32 bits is the number, and Unknown where NULL stands.
pub fn set_equal_32(offsets: &[u32], offset: u128, nulls: &Plane, to: &mut TruthMask)
    requires { length nulls.now ≡ length offsets.now }
    ensures { to.new ≡ known_of (λ o. nat_eq o offset) offsets.now nulls.now }
{
    set_equal(offsets, offset, nulls, to);
}

fn set_equal<T: OffsetLanes>(offsets: &[T], offset: u128, nulls: &Plane, to: &mut TruthMask)
    requires { length nulls.now ≡ length (T.numbers offsets.now) }
    ensures { to.new ≡ known_of (λ o. nat_eq o offset) (T.numbers offsets.now) nulls.now }
{
    if offset <= u128::from(T::greatest_of(offsets)) {
        let number = offset as u32;
        let test = Equal { number };
        set_known_by(&OffsetTest { offsets, test }, nulls, to);
    } else {
        set_never(nulls, to);
    }
}
