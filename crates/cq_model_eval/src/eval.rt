//! The value of an expression in a row, without a copy of a text.
ghost use Rattle.std.specs.Prelude.{◌≡◌};
ghost use Rattle.cq_values.specs.Lent.{owned};
ghost use Rattle.cq_model.specs.Eval.{eval, extracted, negated, plus, times};
ghost use Rattle.cq_model.specs.Exact.{IsExactAt, ValueInRange};
ghost use Rattle.cq_model.specs.Trees.{expr_of};
ghost use Rattle.cq_model_eval.specs.Laws.{LimitHolds, LimitHoldsIn, NarrowIsExact, NarrowIsExactIn};

use cq_model::{Expr, ExprTree};
use cq_values::{DayPart, Lent, Value, lend_column};

/// The value of the expression in the row. It takes no memory.
pub fn eval_row<'a>(expr: &'a Expr, row: &'a [Value]) -> Lent<'a>
    requires { IsExactAt expr.now row.now }
    ensures { owned result ≡ eval expr.now row.now }
{
    eval_tree(expr.tree(), row)
}

pub(crate) fn eval_tree<'a>(tree: &'a ExprTree, row: &'a [Value]) -> Lent<'a>
    requires { IsExactAt (expr_of tree.now) row.now }
    ensures { owned result ≡ eval (expr_of tree.now) row.now }
{
    match tree {
        ExprTree::Column(place) => lend_column(row, *place),
        ExprTree::Literal(value) => value.lend(),
        ExprTree::Negate(part) => negate(&eval_tree(part, row)),
        ExprTree::Sum(first, rest) => {
            let mut sum = eval_tree(first, row);
            for term in rest {
                sum = add(&sum, &eval_tree(term, row));
            }
            sum
        }
        ExprTree::Product(first, rest) => {
            let mut product = eval_tree(first, row);
            for factor in rest {
                product = multiply(&product, &eval_tree(factor, row));
            }
            product
        }
        ExprTree::Extract(day_part, part) => extract(*day_part, &eval_tree(part, row)),
    }
}

fn negate<'a>(a: &Lent<'_>) -> Lent<'a>
    requires { ValueInRange (negated (owned a.now)) }
    ensures { owned result ≡ negated (owned a.now) }
{
    match a {
        Lent::Number(n) => Lent::Number(-*n),
        _ => Lent::Null,
    }
}

fn add<'a>(a: &Lent<'_>, b: &Lent<'_>) -> Lent<'a>
    requires { ValueInRange (plus (owned a.now) (owned b.now)) }
    ensures { owned result ≡ plus (owned a.now) (owned b.now) }
{
    match (a, b) {
        (Lent::Number(m), Lent::Number(n)) => Lent::Number(*m + *n),
        _ => Lent::Null,
    }
}

fn multiply<'a>(a: &Lent<'_>, b: &Lent<'_>) -> Lent<'a>
    requires { ValueInRange (times (owned a.now) (owned b.now)) }
    ensures { owned result ≡ times (owned a.now) (owned b.now) }
{
    match (a, b) {
        (Lent::Number(m), Lent::Number(n)) => Lent::Number(*m * *n),
        _ => Lent::Null,
    }
}

fn extract<'a>(part: DayPart, value: &Lent<'_>) -> Lent<'a>
    ensures { owned result ≡ extracted part (owned value.now) }
{
    match value {
        Lent::Day(day) => {
            let date = day.date();
            match part {
                DayPart::Year => Lent::Number(i128::from(date.year)),
                DayPart::Month => Lent::Number(i128::from(date.month)),
                DayPart::Day => Lent::Number(i128::from(date.day)),
            }
        }
        _ => Lent::Null,
    }
}

/// The limits of the columns limit each value of an expression and of a condition.
pub fn limit_holds()
    ensures expressions { LimitHolds }
    ensures conditions { LimitHoldsIn }
{}

/// In a row where nothing is too wide, each exact result of arithmetic fits.
pub fn narrow_is_exact()
    ensures expressions { NarrowIsExact }
    ensures conditions { NarrowIsExactIn }
{}
