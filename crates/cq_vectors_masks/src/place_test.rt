//! A yes or no for each place.
//!
//! A kernel writes its test as a [`PlaceTest`], which answers for one place, and as a [`WordTest`], which answers for
//! 64 at once and may go by lanes. A plane that is set where the test holds asks for whole words, and for the places
//! behind the last whole word one at a time.
ghost use Rattle.std.specs.List.{range_with_len};
ghost use Rattle.std.specs.Prelude.{Bool, map, ℕ, ◌+◌, ◌<◌, ◌^◌, ◌≡◌, ◌≤◌};
ghost use Rattle.std.specs.Simd.Lanes.{mask_l};

/// A test of each place.
pub trait PlaceTest {
    ghost places: { Self → ℕ };

    ghost holds: { Self → ℕ → Bool };

    fn at(&self, i: usize) -> bool
        requires { i < places self.now }
        ensures { result ≡ holds self.now i };
}

/// The same test, 64 places at a time.
pub trait WordTest: PlaceTest {
    /// The answers of 64 places, the first in the lowest bit.
    fn word(&self, from: usize) -> u64
        requires there { from + 64 ≤ Self.places self.now }
        requires small { from + 64 < 2 ^ 64 }
        ensures { result ≡ mask_l (map (Self.holds self.now) (range_with_len from 64)) };
}

/// One answer in each of 1,024 places.
#[derive(Drop)]
pub(crate) struct Everywhere {
    pub(crate) flag: bool,
}

impl PlaceTest for Everywhere {
    ghost places = { λ t. 1024 };

    ghost holds = { λ t place. t.flag };

    fn at(&self, _: usize) -> bool {
        self.flag
    }
}

impl WordTest for Everywhere {
    fn word(&self, _: usize) -> u64 {
        if self.flag { u64::MAX } else { 0 }
    }
}
