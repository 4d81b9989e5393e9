//! Expressions that have the same value in every row.
ghost use Rattle.std.specs.Prelude.{IfSome};
ghost use Rattle.cq_model.specs.Trees.{expr_of};
ghost use Rattle.cq_operators_scans.specs.Constant.{HasValue, IsNegative};

use cq_model::ExprTree;
use cq_values::{Lent, Value};

/// The value of an expression that has the same one in every row, if it is a literal or the negative of a number.
pub fn constant_of(expr: &ExprTree) -> Option<Lent<'_>>
    ensures { IfSome result (HasValue (expr_of expr.now)) }
{
    match expr {
        ExprTree::Literal(value) => Some(value.lend()),
        ExprTree::Negate(part) => negative_of(part),
        _ => None,
    }
}

/// The negative of an expression, if it is a number: none of the least one, which has no negative.
fn negative_of<'c>(expr: &ExprTree) -> Option<Lent<'c>>
    ensures { IfSome result (IsNegative (expr_of expr.now)) }
{
    match expr {
        ExprTree::Literal(Value::Number(number)) => Some(Lent::Number(number.checked_neg()?)),
        _ => None,
    }
}
