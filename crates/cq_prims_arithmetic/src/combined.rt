//! The choice of the loop for an operation on two vectors.
ghost use Rattle.std.specs.Prelude.{IfOk, length, map, ◌≡◌};
ghost use Rattle.std.specs.Option.{IfSome};
ghost use Rattle.std.specs.Simd.Lanes.{zip2};
ghost use Rattle.cq_values.specs.declared.value.Value.TheVariants.{Number};
ghost use Rattle.cq_prims_arithmetic.specs.Operation.{AllAddInRange, lifted};

use crate::constants::of_constants;
use crate::operands::Operands;
use crate::operation::Operation;
use crate::places::by_places;
use crate::taker::give_side;
use crate::unbroken::{Unbroken, numbers_in};
use crate::wide::wide;
use crate::wide_side::{ShortColumn, WideColumn, WideRepeated, WideSide};
use crate::widened::widened;
use cq_vectors::{Buffers, Form, Vector};
use std::alloc::{AllocError, Global};

pub(crate) fn combined<'a, O: Operation>(
    alloc: Global,
    buffers: &mut Buffers,
    of: &Operands<'_, '_, '_, O>,
) -> Result<Vector<'a>, AllocError>
    ensures { IfOk result (λ made. made ≡ zip2 (lifted O.apply) of.now.a.now of.now.b.now) }
{
    if let Some(made) = of_constants(of) {
        return Ok(made);
    }
    if let Some(made) = give_side(alloc, buffers, of.a, of)? {
        return Ok(made);
    }
    from_own(alloc, buffers, of)
}

/// The same from copies of numbers above a base: base and width did not tell that 64 bits are enough.
fn from_own<'a, O: Operation>(
    alloc: Global,
    buffers: &mut Buffers,
    of: &Operands<'_, '_, '_, O>,
) -> Result<Vector<'a>, AllocError>
    ensures { IfOk result (λ made. made ≡ zip2 (lifted O.apply) of.now.a.now of.now.b.now) }
{
    let (operation, a, b) = (of.operation, of.a, of.b);
    match (
        own_numbers(alloc, buffers, a)?,
        own_numbers(alloc, buffers, b)?,
    ) {
        (Some(a), Some(b)) => {
            let made = by_forms(alloc, buffers, &a, &b, operation);
            buffers.take_back(a);
            buffers.take_back(b);
            made
        }
        (Some(a), None) => {
            let made = by_forms(alloc, buffers, &a, b, operation);
            buffers.take_back(a);
            made
        }
        (None, Some(b)) => {
            let made = by_forms(alloc, buffers, a, &b, operation);
            buffers.take_back(b);
            made
        }
        (None, None) => in_128_bits(alloc, buffers, of),
    }
}

/// A copy of numbers above a base, each in 64 bits.
fn own_numbers<'a>(
    alloc: Global,
    buffers: &mut Buffers,
    of: &Vector<'_>,
) -> Result<Option<Vector<'a>>, AllocError>
    ensures { IfOk result (λ made. IfSome made (λ own. own ≡ of.now)) }
{
    match of.form() {
        Form::Narrow(narrow) => {
            let numbers = widened(alloc, buffers, narrow)?;
            Ok(Some(Vector::new(Form::Numbers(numbers))))
        }
        _ => Ok(None),
    }
}

fn by_forms<'a, O: Operation>(
    alloc: Global,
    buffers: &mut Buffers,
    a: &Vector<'_>,
    b: &Vector<'_>,
    operation: O,
) -> Result<Vector<'a>, AllocError>
    requires same { length a.now ≡ length b.now }
    requires fits { AllAddInRange (zip2 (lifted O.apply) a.now b.now) }
    ensures { IfOk result (λ made. made ≡ zip2 (lifted O.apply) a.now b.now) }
{
    let of = Operands { operation, a, b };
    match give_side(alloc, buffers, of.a, &of)? {
        Some(made) => Ok(made),
        None => in_128_bits(alloc, buffers, &of),
    }
}

/// In 128 bits: by a loop for these forms where no place has NULL, and else place by place.
fn in_128_bits<'a, O: Operation>(
    alloc: Global,
    buffers: &mut Buffers,
    of: &Operands<'_, '_, '_, O>,
) -> Result<Vector<'a>, AllocError>
    ensures { IfOk result (λ made. made ≡ zip2 (lifted O.apply) of.now.a.now of.now.b.now) }
{
    match numbers_in(of.a) {
        Unbroken::Numbers(values) => with_left(alloc, buffers, of, &ShortColumn { values }),
        Unbroken::Wide(values) => with_left(alloc, buffers, of, &WideColumn { values }),
        Unbroken::One(number, len) => with_left(alloc, buffers, of, &WideRepeated { number, len }),
        Unbroken::Broken => by_places(alloc, buffers, of),
    }
}

/// The same where the numbers of the first vector are these.
fn with_left<'a, O: Operation, A: WideSide>(
    alloc: Global,
    buffers: &mut Buffers,
    of: &Operands<'_, '_, '_, O>,
    left: &A,
) -> Result<Vector<'a>, AllocError>
    requires { of.now.a.now ≡ map Number (A.numbers left.now) }
    ensures { IfOk result (λ made. made ≡ zip2 (lifted O.apply) of.now.a.now of.now.b.now) }
{
    match numbers_in(of.b) {
        Unbroken::Numbers(values) => wide(alloc, buffers, of, left, &ShortColumn { values }),
        Unbroken::Wide(values) => wide(alloc, buffers, of, left, &WideColumn { values }),
        Unbroken::One(number, len) => wide(alloc, buffers, of, left, &WideRepeated { number, len }),
        Unbroken::Broken => by_places(alloc, buffers, of),
    }
}
