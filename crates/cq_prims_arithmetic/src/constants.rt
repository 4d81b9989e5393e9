//! Operations on vectors of one value each: the result is one value too, and is worked out once.
ghost use Rattle.std.specs.Prelude.{◌≡◌};
ghost use Rattle.std.specs.Option.{IfSome};
ghost use Rattle.std.specs.Simd.Lanes.{zip2};
ghost use Rattle.cq_values.specs.Lent.{owned};
ghost use Rattle.cq_model.specs.Exact.{ValueInRange};
ghost use Rattle.cq_prims_arithmetic.specs.Operation.{lifted};

use crate::operands::Operands;
use crate::operation::Operation;
use cq_values::Lent;
use cq_vectors::{Form, Vector};

/// The results, if both vectors are constants and have a place. Takes no memory.
pub(crate) fn of_constants<'a, O: Operation>(of: &Operands<'_, '_, '_, O>) -> Option<Vector<'a>>
    ensures { IfSome result (λ made. made ≡ zip2 (lifted O.apply) of.now.a.now of.now.b.now) }
{
    match (of.a.form(), of.b.form()) {
        (Form::Constant(a, len), Form::Constant(b, _)) if 0 < *len => {
            let value = result_of::<O>(a, b);
            Some(Vector::new(Form::Constant(value, *len)))
        }
        _ => None,
    }
}

/// The result of two values, which is NULL where one is no number.
fn result_of<'a, O: Operation>(a: &Lent<'_>, b: &Lent<'_>) -> Lent<'a>
    requires { ValueInRange (lifted O.apply (owned a.now) (owned b.now)) }
    ensures { owned result ≡ lifted O.apply (owned a.now) (owned b.now) }
{
    match (a, b) {
        (Lent::Number(m), Lent::Number(n)) => Lent::Number(O::in_128_bits(*m, *n)),
        _ => Lent::Null,
    }
}
