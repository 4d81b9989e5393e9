//! Arithmetic place by place, for forms that have no loop of their own.
ghost use Rattle.std.specs.Prelude.{IfOk, ◌≡◌};
ghost use Rattle.std.specs.Simd.Lanes.{zip2};
ghost use Rattle.cq_values.specs.Lent.{owned};
ghost use Rattle.cq_values.specs.declared.value.Value.TheVariants.{Number, Null};
ghost use Rattle.cq_model.specs.Exact.{ValueInRange};
ghost use Rattle.cq_prims_arithmetic.specs.Operation.{lifted, no_number};
ghost use Rattle.cq_model.specs.Group.{addend};

use crate::operands::Operands;
use crate::operation::Operation;
use cq_values::Lent;
use cq_vectors::{Buffers, Form, Vector, WideNumbers};
use cq_vectors_masks::Plane;
use std::alloc::{AllocError, Global};

pub(crate) fn by_places<'a, O: Operation>(
    alloc: Global,
    buffers: &mut Buffers,
    of: &Operands<'_, '_, '_, O>,
) -> Result<Vector<'a>, AllocError>
    ensures { IfOk result (λ made. made ≡ zip2 (lifted O.apply) of.now.a.now of.now.b.now) }
{
    let (a, b) = (of.a, of.b);
    let len = a.len();
    let mut values = buffers.wide(alloc);
    let mut nulls = Plane::new();
    values.reserve(len)?;
    for i in 0..len {
        let (number, null) = number_at::<O>(&a.lend(i), &b.lend(i));
        values.push_reserved(number);
        nulls.push(null);
    }
    Ok(Vector::new(Form::Wide(WideNumbers::new(values, nulls))))
}

/// The result and whether it is NULL. A NULL has the number 0.
fn number_at<O: Operation>(a: &Lent<'_>, b: &Lent<'_>) -> (i128, bool)
    requires { ValueInRange (lifted O.apply (owned a.now) (owned b.now)) }
    ensures number { result.0 ≡ addend (lifted O.apply (owned a.now) (owned b.now)) }
    ensures null { result.1 ≡ no_number (lifted O.apply (owned a.now) (owned b.now)) }
{
    match (a, b) {
        (Lent::Number(m), Lent::Number(n)) => (O::in_128_bits(*m, *n), false),
        _ => (0, true),
    }
}
