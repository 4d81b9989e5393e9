//! The choice of the form in which a side of an operation in 64 bits stands: its numbers are a column, or are one number.
//!
//! Who takes the side is given it in that form. None is answered where a form has no loop.
ghost use Rattle.std.specs.Prelude.{IfOk, List, false, length, replicate, ◌≡◌, ◌≤◌};
ghost use Rattle.std.specs.Option.{IfSome};
ghost use Rattle.cq_values.specs.Lent.{owned};
ghost use Rattle.cq_values.specs.declared.value.Value.{Value};
ghost use Rattle.cq_values.specs.declared.value.Value.TheVariants.{Number};
ghost use Rattle.cq_prims_arithmetic.specs.Sides.{AreSide};

use crate::above::Above;
use crate::side::{Column, Repeated, Side};
use cq_values::Lent;
use cq_vectors::{Buffers, Form, Vector};
use cq_vectors_masks::Plane;
use cq_vectors_stored::{Narrow, Offsets};
use std::alloc::{AllocError, Global};

/// A vector, where the forms have a loop.
pub(crate) type Made<'a> = Result<Option<Vector<'a>>, AllocError>;

/// Who takes a side, and goes on with it.
pub(crate) trait Taker {
    /// The values of the side.
    ghost values: { Self → List Value };

    /// What is made of it.
    ghost wanted: { Self → List Value };

    fn take<'a, S: Side>(
        &self,
        alloc: Global,
        buffers: &mut Buffers,
        side: &S,
        nulls: &Plane,
    ) -> Made<'a>
        requires { AreSide (S.numbers side.now) nulls.now (values self.now) }
        ensures { IfOk result (λ made. IfSome made (λ v. v ≡ wanted self.now)) };
}

/// Gives the taker the vector as a side.
pub(crate) fn give_side<'a, K: Taker>(
    alloc: Global,
    buffers: &mut Buffers,
    vector: &Vector<'_>,
    taker: &K,
) -> Made<'a>
    requires { vector.now ≡ K.values taker.now }
    ensures { IfOk result (λ made. IfSome made (λ v. v ≡ K.wanted taker.now)) }
{
    if let Form::Narrow(column) = vector.form() {
        return give_narrow(alloc, buffers, column, taker);
    }
    if let Form::Constant(value, len) = vector.form() {
        return give_constant(alloc, buffers, vector, value, *len, taker);
    }
    match vector.numbers() {
        Some(column) => {
            let (values, size) = (column.values(), column.size());
            taker.take(alloc, buffers, &Column { values, size }, column.nulls())
        }
        None => Ok(None),
    }
}

fn give_narrow<'a, K: Taker>(
    alloc: Global,
    buffers: &mut Buffers,
    column: &Narrow<'_>,
    taker: &K,
) -> Made<'a>
    requires { K.values taker.now ≡ column.now }
    ensures { IfOk result (λ made. IfSome made (λ v. v ≡ K.wanted taker.now)) }
{
    let (base, offsets) = column.parts();
    let nulls = column.nulls();
    match offsets {
        Offsets::One(offsets) => taker.take(alloc, buffers, &Above { base, offsets }, nulls),
        Offsets::Two(offsets) => taker.take(alloc, buffers, &Above { base, offsets }, nulls),
        Offsets::Four(offsets) => taker.take(alloc, buffers, &Above { base, offsets }, nulls),
    }
}

/// The same for a constant of which the vector is so many.
fn give_constant<'a, K: Taker>(
    alloc: Global,
    buffers: &mut Buffers,
    vector: &Vector<'_>,
    value: &Lent<'_>,
    len: usize,
    taker: &K,
) -> Made<'a>
    requires values { vector.now ≡ K.values taker.now }
    requires constant { vector.now ≡ replicate len (owned value.now) }
    ensures { IfOk result (λ made. IfSome made (λ v. v ≡ K.wanted taker.now)) }
{
    match number_of(value) {
        Some(number) => {
            let nulls = none_of(vector.len());
            taker.take(alloc, buffers, &Repeated { number, len }, &nulls)
        }
        None => Ok(None),
    }
}

/// The number, if it is one of 64 bits.
fn number_of(value: &Lent<'_>) -> Option<i64>
    ensures { IfSome result (λ n. owned value.now ≡ Number n) }
{
    match value {
        Lent::Number(n) => i64::try_from(*n).ok(),
        _ => None,
    }
}

/// No place of so many.
fn none_of(len: usize) -> Plane
    requires { len ≤ 1024 }
    ensures { result ≡ replicate len false }
{
    let mut nulls = Plane::new();
    nulls.set_all(false, len);
    nulls
}
