//! The arithmetic of the language over vectors. Results stand in memory of the buffers, as long as there is some.
ghost use Rattle.std.specs.Prelude.{IfOk, length, map, ◌≡◌};
ghost use Rattle.std.specs.Simd.Lanes.{zip2};
ghost use Rattle.cq_model.specs.Eval.{negated, plus, times};
ghost use Rattle.cq_prims_arithmetic.specs.Operation.{AllInRange, lifted};

use crate::combined::combined;
use crate::operands::Operands;
use crate::operation::{Minus, Operation, Plus, Times};
use cq_values::Lent;
use cq_vectors::{Buffers, Form, Vector};
use std::alloc::{AllocError, Global};

/// The sums of two columns, place by place.
pub fn add<'a>(
    alloc: Global,
    buffers: &mut Buffers,
    a: &Vector<'_>,
    b: &Vector<'_>,
) -> Result<Vector<'a>, AllocError>
    requires same { length a.now ≡ length b.now }
    requires fits { AllInRange (zip2 plus a.now b.now) }
    ensures { IfOk result (λ made. made ≡ zip2 plus a.now b.now) }
{
    worked(alloc, buffers, Plus, a, b)
}

/// The products of two columns, place by place.
pub fn mul<'a>(
    alloc: Global,
    buffers: &mut Buffers,
    a: &Vector<'_>,
    b: &Vector<'_>,
) -> Result<Vector<'a>, AllocError>
    requires same { length a.now ≡ length b.now }
    requires fits { AllInRange (zip2 times a.now b.now) }
    ensures { IfOk result (λ made. made ≡ zip2 times a.now b.now) }
{
    worked(alloc, buffers, Times, a, b)
}

/// The numbers of the first column less those of the second, place by place.
pub fn sub<'a>(
    alloc: Global,
    buffers: &mut Buffers,
    a: &Vector<'_>,
    b: &Vector<'_>,
) -> Result<Vector<'a>, AllocError>
    requires same { length a.now ≡ length b.now }
    requires fits { AllInRange (zip2 plus a.now (map negated b.now)) }
    ensures { IfOk result (λ made. made ≡ zip2 plus a.now (map negated b.now)) }
{
    worked(alloc, buffers, Minus, a, b)
}

/// Each number with the other sign.
pub fn neg<'a>(
    alloc: Global,
    buffers: &mut Buffers,
    a: &Vector<'_>,
) -> Result<Vector<'a>, AllocError>
    requires { AllInRange (map negated a.now) }
    ensures { IfOk result (λ made. made ≡ map negated a.now) }
{
    let zero = Vector::new(Form::Constant(Lent::Number(0), a.len()));
    worked(alloc, buffers, Minus, &zero, a)
}

fn worked<'a, O: Operation>(
    alloc: Global,
    buffers: &mut Buffers,
    operation: O,
    a: &Vector<'_>,
    b: &Vector<'_>,
) -> Result<Vector<'a>, AllocError>
    requires same { length a.now ≡ length b.now }
    requires fits { AllInRange (zip2 (lifted O.apply) a.now b.now) }
    ensures { IfOk result (λ made. made ≡ zip2 (lifted O.apply) a.now b.now) }
{
    combined(alloc, buffers, &Operands { operation, a, b })
}
