//! Operations in 128 bits on columns without NULLs, each pair of forms by a loop of its own.
ghost use Rattle.std.specs.Int.{w128};
ghost use Rattle.std.specs.Prelude.{IfOk, length, map, ◌≡◌};
ghost use Rattle.std.specs.Simd.Lanes.{zip2};
ghost use Rattle.cq_values.specs.declared.value.Value.TheVariants.{Number};
ghost use Rattle.cq_vectors_stored.specs.Columns.{AllFit};
ghost use Rattle.cq_prims_arithmetic.specs.Operation.{lifted};

use crate::operands::Operands;
use crate::operation::Operation;
use crate::wide_side::WideSide;
use cq_vectors::{Buffers, Form, Vector, WideNumbers};
use cq_vectors_masks::Plane;
use std::alloc::{AllocError, Global};

/// The results of two vectors whose numbers are these.
pub(crate) fn wide<'a, O: Operation, A: WideSide, B: WideSide>(
    alloc: Global,
    buffers: &mut Buffers,
    of: &Operands<'_, '_, '_, O>,
    a: &A,
    b: &B,
) -> Result<Vector<'a>, AllocError>
    requires first { of.now.a.now ≡ map Number (A.numbers a.now) }
    requires second { of.now.b.now ≡ map Number (B.numbers b.now) }
    ensures { IfOk result (λ made. made ≡ zip2 (lifted O.apply) of.now.a.now of.now.b.now) }
{
    let len = of.a.len();
    let values = wide_results::<O, A, B>(alloc, buffers, a, b, len)?;
    let mut nulls = Plane::new();
    nulls.set_all(false, len);
    Ok(Vector::new(Form::Wide(WideNumbers::new(values, nulls))))
}

fn wide_results<O: Operation, A: WideSide, B: WideSide>(
    alloc: Global,
    buffers: &mut Buffers,
    a: &A,
    b: &B,
    len: usize,
) -> Result<Vec<i128>, AllocError>
    requires left { length (A.numbers a.now) ≡ len }
    requires right { length (B.numbers b.now) ≡ len }
    requires fits { AllFit w128 (zip2 O.apply (A.numbers a.now) (B.numbers b.now)) }
    ensures { IfOk result (λ made. made.items ≡ zip2 O.apply (A.numbers a.now) (B.numbers b.now)) }
{
    let mut values = buffers.wide(alloc);
    values.reserve(len)?;
    for i in 0..len {
        values.push_reserved(O::in_128_bits(a.at(i), b.at(i)));
    }
    Ok(values)
}
