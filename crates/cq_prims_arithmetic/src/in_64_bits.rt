//! Operations whose results all fit 64 bits.
ghost use Rattle.std.specs.Int.{w64};
ghost use Rattle.std.specs.Prelude.{IfOk, length, ◌<◌, ◌^◌, ◌≡◌};
ghost use Rattle.std.specs.Simd.Lanes.{zip2};
ghost use Rattle.cq_prims_arithmetic.specs.Operation.{results};
ghost use Rattle.cq_vectors_stored.specs.Columns.{AllFit};
ghost use Rattle.cq_vectors_stored.specs.Sizes.{AreUpTo};

use crate::clear::clear_nulls;
use crate::operation::Operation;
use crate::side::Side;
use cq_vectors::{Buffers, Form, Numbers, Vector};
use cq_vectors_masks::Plane;
use std::alloc::{AllocError, Global};

/// The results as a vector, NULL in the places that are given. None is farther from zero than the size.
pub(crate) fn in_64_bits<'a, O: Operation, A: Side, B: Side>(
    alloc: Global,
    buffers: &mut Buffers,
    a: &A,
    b: &B,
    nulls: Plane,
    size: u64,
) -> Result<Vector<'a>, AllocError>
    requires left { length (A.numbers a.now) ≡ length nulls }
    requires right { length (B.numbers b.now) ≡ length nulls }
    requires within { AreUpTo size (zip2 O.apply (A.numbers a.now) (B.numbers b.now)) }
    requires fits { size < 2 ^ 63 }
    ensures { IfOk result (λ made. made ≡ results O.apply (A.numbers a.now) (B.numbers b.now) nulls) }
{
    let mut values = results_in_64_bits::<O, A, B>(alloc, buffers, a, b, nulls.len())?;
    clear_nulls(&mut values, &nulls);
    let numbers = Numbers::new(values, nulls).sized(size);
    Ok(Vector::new(Form::Numbers(numbers)))
}

fn results_in_64_bits<O: Operation, A: Side, B: Side>(
    alloc: Global,
    buffers: &mut Buffers,
    a: &A,
    b: &B,
    len: usize,
) -> Result<Vec<i64>, AllocError>
    requires left { length (A.numbers a.now) ≡ len }
    requires right { length (B.numbers b.now) ≡ len }
    requires fits { AllFit w64 (zip2 O.apply (A.numbers a.now) (B.numbers b.now)) }
    ensures { IfOk result (λ made. made.items ≡ zip2 O.apply (A.numbers a.now) (B.numbers b.now)) }
{
    let mut values = buffers.numbers(alloc);
    values.reserve(len)?;
    for i in 0..len {
        values.push_reserved(O::in_64_bits(a.at(i), b.at(i)));
    }
    Ok(values)
}
