//! What aggregates read of rows.
ghost use Rattle.std.specs.List.{AllByRecursion};
ghost use Rattle.std.specs.Prelude.{◌≡◌, ◌≤◌, IfOk, map, pos, replicate};
ghost use Rattle.cq_values.specs.declared.value.Value.TheVariants.{Number};
ghost use Rattle.cq_operators_scans.specs.Operand.{values_in};
ghost use Rattle.cq_hash_groups.specs.Exact.{IsExactFor};
ghost use Rattle.cq_hash_groups.specs.Arguments.{argument};

use cq_model::Aggregate;
use cq_operators_scans::{Operand, Scan, vector_of};
use cq_values::Lent;
use cq_vectors::{Buffers, Form, Vector};
use std::alloc::{AllocError, Global};

/// What an aggregate reads of each row. Each row counts for COUNT(*).
pub(crate) fn argument_of<'s, 'a>(
    alloc: Global,
    buffers: &mut Buffers,
    aggregate: &'a Aggregate,
    scan: &'s Scan<'a>,
) -> Result<Operand<'s, 'a>, AllocError>
    requires { AllByRecursion (IsExactFor aggregate.now) scan.now }
    ensures { IfOk result (λ values. values_in values ≡ map (argument aggregate.now) scan.now) }
{
    match aggregate {
        Aggregate::CountAll => Ok(Operand::Own(ones(scan.len()))),
        Aggregate::Count(expr)
        | Aggregate::CountDistinct(expr)
        | Aggregate::Sum(expr)
        | Aggregate::Min(expr)
        | Aggregate::Max(expr) => vector_of(alloc, buffers, expr, scan),
    }
}

/// A value for each row, whichever it is.
fn ones<'a>(len: usize) -> Vector<'a>
    requires { len ≤ 1024 }
    ensures { result ≡ replicate len (Number (pos 0)) }
{
    Vector::new(Form::Constant(Lent::Number(0), len))
}
