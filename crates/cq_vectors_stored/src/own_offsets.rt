//! Natural numbers of one's own, each in 8, 16 or 32 bits.
ghost use Rattle.std.specs.Prelude.{◌≡◌};
ghost use Rattle.cq_vectors_stored.specs.Offsets.{offsets_in, own_offsets_in};

use crate::offsets::Offsets;

/// What was read at some places of [`Offsets`], in their width.
#[derive(Drop)]
pub enum OwnOffsets {
    One(Vec<u8>),
    Two(Vec<u16>),
    Four(Vec<u32>),
}

impl OwnOffsets {
    pub fn lend(&self) -> Offsets<'_>
        ensures { offsets_in result ≡ own_offsets_in self.now }
    {
        match self {
            OwnOffsets::One(bytes) => Offsets::One(bytes.as_slice()),
            OwnOffsets::Two(pairs) => Offsets::Two(pairs.as_slice()),
            OwnOffsets::Four(fours) => Offsets::Four(fours.as_slice()),
        }
    }
}
