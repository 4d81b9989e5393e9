//! Expressions and conditions in a row, once no number that is written or worked out on the way is too wide.
ghost use Rattle.std.specs.Prelude.{◌≡◌, IfErr, IfOk, map, nat_lt};
ghost use Rattle.cq_model.specs.Eval.{eval};
ghost use Rattle.cq_model.specs.Meaning.{keeps};
ghost use Rattle.cq_model.specs.Width.{extent, number_limit, value_size, widest_at};
ghost use Rattle.cq_test_plain.specs.Faults.{Tells};
ghost use Rattle.cq_test_plain.specs.Wide.{IsWideAt, IsWideIn};

use crate::fault::PlainFault;
use cq_model::{Cond, Expr};
use cq_model_eval::{eval_row, fits, keeps, narrow_is_exact, value_size, width_of};
use cq_values::Value;
use std::alloc::{AllocError, Global};

/// The value of the expression in the row.
pub(crate) fn value_at(alloc: Global, expr: &Expr, row: &[Value]) -> Result<Value, PlainFault>
    ensures ok { IfOk result (λ v. v ≡ eval expr.now row.now) }
    ensures fault { IfErr result (Tells (IsWideAt expr.now row.now) ⊥) }
{
    if !is_narrow(alloc, expr, row)? {
        return Err(PlainFault::TooWide);
    }
    narrow_is_exact();
    Ok(eval_row(expr, row).to_value(alloc)?)
}

/// Whether the row passes the condition. Where there is none, each row does.
pub(crate) fn passes(
    alloc: Global,
    filter: &Option<Cond>,
    row: &[Value],
) -> Result<bool, PlainFault>
    ensures ok { IfOk result (λ passes. passes ≡ keeps filter.now row.now) }
    ensures fault { IfErr result (Tells (IsWideIn filter.now row.now) ⊥) }
{
    if let Some(cond) = filter {
        if !is_cond_narrow(alloc, cond, row)? {
            return Err(PlainFault::TooWide);
        }
    }
    Ok(keeps(filter, row))
}

fn is_narrow(alloc: Global, expr: &Expr, row: &[Value]) -> Result<bool, AllocError>
    ensures { IfOk result (λ narrow. narrow ≡ nat_lt (extent expr.now row.now).widest number_limit) }
{
    let sizes = sizes_of(alloc, row)?;
    Ok(width_of(expr, &sizes).is_some())
}

fn is_cond_narrow(alloc: Global, cond: &Cond, row: &[Value]) -> Result<bool, AllocError>
    ensures { IfOk result (λ narrow. narrow ≡ nat_lt (widest_at cond.now row.now) number_limit) }
{
    let sizes = sizes_of(alloc, row)?;
    Ok(fits(cond, &sizes))
}

/// How far from zero each value of the row is.
fn sizes_of(alloc: Global, row: &[Value]) -> Result<Vec<u128>, AllocError>
    ensures { IfOk result (λ sizes. sizes.items ≡ map value_size row.now) }
{
    row.iter().map(|value| value_size(value)).collect(alloc)
}
