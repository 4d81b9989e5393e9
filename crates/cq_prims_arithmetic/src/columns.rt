//! An operation in 64 bits, where the numbers of both sides stand in columns or are one number.
//!
//! The form of the first vector is looked at, then that of the second. None is answered where 64 bits may not be
//! enough, or a form has no loop. The results know how far from zero they are at most.
ghost use Rattle.std.specs.Prelude.{IfSome, ◌<◌, ◌^◌};
ghost use Rattle.std.specs.Simd.Lanes.{zip2};
ghost use Rattle.cq_vectors_stored.specs.Sizes.{AreUpTo};
ghost use Rattle.cq_prims_arithmetic.specs.Operation.{lifted};
ghost use Rattle.cq_prims_arithmetic.specs.Sides.{AreSide};

use crate::in_64_bits::in_64_bits;
use crate::operands::Operands;
use crate::operation::Operation;
use crate::side::Side;
use crate::taker::{Made, Taker, give_side};
use cq_vectors::{Buffers, Vector};
use cq_vectors_masks::Plane;
use std::alloc::Global;

/// Operands take the first side and go on to the second.
impl<'v, 'x, 'y, O: Operation> Taker for Operands<'v, 'x, 'y, O> {
    ghost values = { λ t. t.a.now };

    ghost wanted = { λ t. zip2 (lifted O.apply) t.a.now t.b.now };

    fn take<'a, S: Side>(
        &self,
        alloc: Global,
        buffers: &mut Buffers,
        side: &S,
        nulls: &Plane,
    ) -> Made<'a> {
        let second = Second {
            of: self,
            left: side,
            left_nulls: nulls,
        };
        give_side(alloc, buffers, self.b, &second)
    }
}

/// Operands of which the first side is known.
#[derive(Drop)]
struct Second<'s, 'v, 'x, 'y, O: Operation, A: Side> {
    of: &'s Operands<'v, 'x, 'y, O>,
    left: &'s A,
    left_nulls: &'s Plane,
    ghost is_left: { AreSide (A.numbers left.now) left_nulls.now of.now.a.now },
}

impl<'s, 'v, 'x, 'y, O: Operation, A: Side> Taker for Second<'s, 'v, 'x, 'y, O, A> {
    ghost values = { λ t. t.of.now.b.now };

    ghost wanted = { λ t. zip2 (lifted O.apply) t.of.now.a.now t.of.now.b.now };

    fn take<'a, S: Side>(
        &self,
        alloc: Global,
        buffers: &mut Buffers,
        side: &S,
        nulls: &Plane,
    ) -> Made<'a> {
        let (left, left_nulls) = (self.left, self.left_nulls);
        match size_of_results::<O, A, S>(left, side) {
            Some(size) => {
                let mut both = Plane::new();
                both.set_or(left_nulls, nulls);
                let made = in_64_bits::<O, A, S>(alloc, buffers, left, side, both, size)?;
                Ok(Some(made))
            }
            None => Ok(None),
        }
    }
}

/// How far from zero the results are at most, if that fits 64 bits. Numbers are looked at only where what is known of
/// their sizes does not tell.
fn size_of_results<O: Operation, A: Side, B: Side>(a: &A, b: &B) -> Option<u64>
    ensures within { IfSome result (λ size. AreUpTo size (zip2 O.apply (A.numbers a.now) (B.numbers b.now))) }
    ensures fits { IfSome result (λ size. size < 2 ^ 63) }
{
    match O::size(a.size(), b.size()) {
        Some(size) => Some(size),
        None => O::size(a.seen_size(), b.seen_size()),
    }
}
