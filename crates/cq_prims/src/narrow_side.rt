//! A column above a base, and the constant that it is compared with.
ghost use Rattle.std.specs.Prelude.{length, ◌≡◌};
ghost use Rattle.cq_vectors_stored.specs.Offsets.{offsets_in};

use cq_vectors_masks::Plane;
use cq_vectors_stored::Offsets;

/// A column of numbers or days above a base, and the constant beside each.
#[derive(Drop)]
pub(crate) struct NarrowSide<'a> {
    pub(crate) base: i64,
    pub(crate) offsets: Offsets<'a>,
    pub(crate) nulls: &'a Plane,
    pub(crate) value: i128,
    ghost same: { length nulls.now ≡ length (offsets_in offsets) },
}
