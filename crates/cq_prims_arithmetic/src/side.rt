//! The two sides of an operation in 64 bits.
ghost use Rattle.std.specs.Prelude.{length, pos, replicate, slice_index_or, List, ℤ, ◌<◌, ◌≡◌};
ghost use Rattle.cq_vectors_stored.specs.Sizes.{AreUpTo};

use crate::sizes::largest_size;

/// Numbers of 64 bits, one for each place.
pub(crate) trait Side {
    ghost numbers: { Self → List ℤ };

    fn at(&self, i: usize) -> i64
        requires { i < length (numbers self.now) }
        ensures { result ≡ slice_index_or (numbers self.now) i (pos 0) };

    /// No number is farther from zero, as far as is known of the side. No number of a column is looked at.
    fn size(&self) -> u64
        ensures { AreUpTo result (numbers self.now) };

    /// The same after a look at the numbers of a column.
    fn seen_size(&self) -> u64
        ensures { AreUpTo result (numbers self.now) };
}

/// Numbers, none of which is farther from zero than the size.
#[derive(Drop)]
pub(crate) struct Column<'b> {
    pub(crate) values: &'b [i64],
    pub(crate) size: u64,
    ghost within: { AreUpTo size values.now },
}

impl Side for Column<'_> {
    ghost numbers = { λ c. c.values.now };

    fn at(&self, i: usize) -> i64 {
        self.values[i]
    }

    fn size(&self) -> u64 {
        self.size
    }

    fn seen_size(&self) -> u64 {
        largest_size(self.values)
    }
}

/// One number in each place. No copy of it is made.
#[derive(Drop)]
pub(crate) struct Repeated {
    pub(crate) number: i64,
    pub(crate) len: usize,
}

impl Side for Repeated {
    ghost numbers = { λ r. replicate r.len r.number };

    fn at(&self, _: usize) -> i64 {
        self.number
    }

    fn size(&self) -> u64 {
        self.number.unsigned_abs()
    }

    fn seen_size(&self) -> u64 {
        self.number.unsigned_abs()
    }
}
