//! Numbers above a base as a side of an operation, in the width in which they stand.
ghost use Rattle.cq_vectors_stored.specs.LentColumns.{FitAbove};
ghost use Rattle.cq_vectors_stored.specs.Sizes.{AreUpTo};
ghost use Rattle.cq_prims_arithmetic.specs.Sides.{all_above};

use crate::side::Side;
use cq_prims_lanes::Offset;

/// Offsets of one width above a base.
#[derive(Drop)]
pub(crate) struct Above<'b, T: Offset> {
    pub(crate) base: i64,
    pub(crate) offsets: &'b [T],
    ghost fit: { FitAbove base (T.numbers offsets.now) },
}

impl<T: Offset> Side for Above<'_, T> {
    ghost numbers = { λ c. all_above c.base (T.numbers c.offsets.now) };

    fn at(&self, i: usize) -> i64 {
        let (base, offsets) = (self.base, self.offsets);
        base + i64::from(T::at(offsets, i))
    }

    fn size(&self) -> u64 {
        size_above(self.base, self.offsets)
    }

    fn seen_size(&self) -> u64 {
        size_above(self.base, self.offsets)
    }
}

/// No number at an offset of the width is farther from zero.
fn size_above<T: Offset>(base: i64, offsets: &[T]) -> u64
    ensures { AreUpTo result (all_above base (T.numbers offsets.now)) }
{
    base.unsigned_abs() + u64::from(T::greatest_of(offsets))
}
