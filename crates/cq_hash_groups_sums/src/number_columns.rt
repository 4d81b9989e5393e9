//! Columns of numbers of 64 bits, read where they stand.
//!
//! A column has a number in each place, also where NULL stands: a plane tells these places, and nobody may use the number.
ghost use Rattle.std.specs.Bool.{OnTrue};
ghost use Rattle.std.specs.Prelude.{length, pos, slice_index_or, List, ℤ, ◌<◌, ◌≡◌};
ghost use Rattle.cq_values.specs.Lent.{owned};
ghost use Rattle.cq_vectors_stored.specs.Columns.{number_unless};
ghost use Rattle.cq_vectors_stored.specs.LentColumns.{FitAbove};
ghost use Rattle.cq_vectors_stored.specs.Offsets.{offsets_in};
ghost use Rattle.cq_hash_groups_sums.specs.NumberColumns.{AreSmall, all_above};

use cq_prims_lanes::Offset;
use cq_values::Lent;
use cq_vectors_stored::Offsets;

/// A number in each place.
pub trait NumberColumn {
    ghost numbers: { Self → List ℤ };

    /// The number of the place.
    fn at(&self, place: usize) -> i64
        requires { place < length (numbers self.now) }
        ensures { result ≡ slice_index_or (numbers self.now) place (pos 0) };

    /// Whether it is plain, without a look at them, that the numbers are small.
    fn are_small(&self) -> bool
        ensures { OnTrue result (AreSmall (numbers self.now)) };
}

/// Numbers as they are.
#[derive(Drop)]
pub struct Plain<'b> {
    pub values: &'b [i64],
}

impl NumberColumn for Plain<'_> {
    ghost numbers = { λ c. c.values.now };

    fn at(&self, place: usize) -> i64 {
        self.values[place]
    }

    fn are_small(&self) -> bool {
        false
    }
}

/// Offsets of one width above a base, so that a loop asks for the width once.
#[derive(Drop)]
pub(crate) struct AboveBy<'b, T: Offset> {
    pub(crate) base: i64,
    pub(crate) offsets: &'b [T],
    ghost fit: { FitAbove base (T.numbers offsets.now) },
}

impl<T: Offset> NumberColumn for AboveBy<'_, T> {
    ghost numbers = { λ c. all_above c.base (T.numbers c.offsets.now) };

    fn at(&self, place: usize) -> i64 {
        let (base, offsets) = (self.base, self.offsets);
        base + i64::from(T::at(offsets, place))
    }

    fn are_small(&self) -> bool {
        let (base, offsets) = (self.base, self.offsets);
        let _most = T::greatest_of(offsets);
        base.unsigned_abs() <= 4_503_599_627_370_496
    }
}

/// Offsets of whichever width above a base.
#[derive(Drop)]
pub struct Above<'b> {
    pub base: i64,
    pub offsets: Offsets<'b>,
    pub ghost fit: { FitAbove base (offsets_in offsets) },
}

impl NumberColumn for Above<'_> {
    ghost numbers = { λ c. all_above c.base (offsets_in c.offsets) };

    fn at(&self, place: usize) -> i64 {
        self.base + i64::from(self.offsets.at(place))
    }

    fn are_small(&self) -> bool {
        false
    }
}

/// The number, unless it stands under a NULL.
pub(crate) fn lent_unless(number: i64, is_null: bool) -> Lent<'static>
    ensures { owned result ≡ number_unless number is_null }
{
    if is_null {
        Lent::Null
    } else {
        Lent::Number(i128::from(number))
    }
}
