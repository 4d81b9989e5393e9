//! Offsets of one width, so that a loop over them asks for their width once.
ghost use Rattle.std.specs.Prelude.{length, slice_index_or, List, ℕ, ◌<◌, ◌≡◌};

/// An offset in each place.
pub(crate) trait Width {
    ghost numbers: { Self → List ℕ };

    fn at(&self, place: usize) -> u32
        requires { place < length (numbers self.now) }
        ensures { result ≡ slice_index_or (numbers self.now) place 0 };
}

/// Offsets of 8 bits.
#[derive(Drop)]
pub(crate) struct Ones<'b> {
    pub(crate) offsets: &'b [u8],
}

impl Width for Ones<'_> {
    ghost numbers = { λ c. c.offsets.now };

    fn at(&self, place: usize) -> u32 {
        let offsets = self.offsets;
        u32::from(offsets[place])
    }
}

/// Offsets of 16 bits.
#[derive(Drop)]
pub(crate) struct Twos<'b> {
    pub(crate) offsets: &'b [u16],
}

impl Width for Twos<'_> {
    ghost numbers = { λ c. c.offsets.now };

    fn at(&self, place: usize) -> u32 {
        let offsets = self.offsets;
        u32::from(offsets[place])
    }
}

/// Offsets of 32 bits.
#[derive(Drop)]
pub(crate) struct Fours<'b> {
    pub(crate) offsets: &'b [u32],
}

impl Width for Fours<'_> {
    ghost numbers = { λ c. c.offsets.now };

    fn at(&self, place: usize) -> u32 {
        let offsets = self.offsets;
        offsets[place]
    }
}
