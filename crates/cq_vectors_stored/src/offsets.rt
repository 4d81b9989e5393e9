//! Natural numbers that are lent, each in 8, 16 or 32 bits.
ghost use Rattle.std.specs.Prelude.{length, slice_index_or, ◌<◌, ◌≡◌};
ghost use Rattle.cq_vectors_stored.specs.Offsets.{offsets_in};

/// What stands above a base, or the codes of entries, as wide as the greatest of a segment asks.
#[derive(Clone, Copy)]
pub enum Offsets<'a> {
    One(&'a [u8]),
    Two(&'a [u16]),
    Four(&'a [u32]),
}

impl<'a> Offsets<'a> {
    pub fn len(&self) -> usize
        ensures { result ≡ length (offsets_in self.now) }
    {
        match self {
            Offsets::One(offsets) => offsets.len(),
            Offsets::Two(offsets) => offsets.len(),
            Offsets::Four(offsets) => offsets.len(),
        }
    }

    pub fn at(&self, place: usize) -> u32
        requires { place < length (offsets_in self.now) }
        ensures { result ≡ slice_index_or (offsets_in self.now) place 0 }
    {
        match self {
            Offsets::One(bytes) => {
                let bytes = *bytes;
                u32::from(bytes[place])
            }
            Offsets::Two(pairs) => {
                let pairs = *pairs;
                u32::from(pairs[place])
            }
            Offsets::Four(fours) => {
                let fours = *fours;
                fours[place]
            }
        }
    }
}
