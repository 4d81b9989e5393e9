//! The truth of a condition in a row.
ghost use Rattle.std.specs.Prelude.{◌≡◌, map};
ghost use Rattle.cq_values.specs.Lent.{owned};
ghost use Rattle.cq_values.specs.Truth.{truth_of};
ghost use Rattle.cq_values.specs.Comparison.{compared, passes};
ghost use Rattle.cq_model.specs.Condition.{between, holds, liked};
ghost use Rattle.cq_model.specs.Exact.{AreExactAt, AreExactIn};
ghost use Rattle.cq_model.specs.Trees.{cond_of, expr_of};
ghost use Rattle.cq_model_eval.specs.Choices.{equals_one};

use crate::eval::eval_tree;
use crate::pattern::like;
use cq_model::{Cond, CondTree, ExprTree};
use cq_values::{Comparison, Lent, Truth, Value, cmp_lent};
use std::cmp::Ordering;

/// The truth of the condition in the row. It takes no memory, and a chain is left as soon as its truth is known.
pub fn holds_row(cond: &Cond, row: &[Value]) -> Truth
    requires { AreExactIn cond.now row.now }
    ensures { result ≡ holds cond.now row.now }
{
    holds_tree(cond.tree(), row)
}

fn holds_tree(tree: &CondTree, row: &[Value]) -> Truth
    requires { AreExactIn (cond_of tree.now) row.now }
    ensures { result ≡ holds (cond_of tree.now) row.now }
{
    match tree {
        CondTree::Compare(comparison, a, b) => {
            compare(*comparison, &eval_tree(a, row), &eval_tree(b, row))
        }
        CondTree::IsNull(expr) => truth_of(eval_tree(expr, row).is_null()),
        CondTree::Between(expr, least, greatest) => between(
            &eval_tree(expr, row),
            &eval_tree(least, row),
            &eval_tree(greatest, row),
        ),
        CondTree::In(expr, choices) => is_in(&eval_tree(expr, row), choices, row),
        CondTree::Like(expr, pattern) => is_like(&eval_tree(expr, row), pattern.as_str()),
        CondTree::Not(part) => holds_tree(part, row).not(),
        CondTree::And(first, rest) => {
            let mut truth = holds_tree(first, row);
            for part in rest {
                if truth == Truth::False {
                    return truth;
                }
                truth = truth.and(holds_tree(part, row));
            }
            truth
        }
        CondTree::Or(first, rest) => {
            let mut truth = holds_tree(first, row);
            for choice in rest {
                if truth == Truth::True {
                    return truth;
                }
                truth = truth.or(holds_tree(choice, row));
            }
            truth
        }
    }
}

/// A comparison with NULL is Unknown.
pub fn compare(comparison: Comparison, a: &Lent<'_>, b: &Lent<'_>) -> Truth
    ensures { result ≡ compared comparison (owned a.now) (owned b.now) }
{
    if a.is_null() || b.is_null() {
        return Truth::Unknown;
    }
    truth_of(passes(comparison, cmp_lent(a, b)))
}

pub(crate) fn between(value: &Lent<'_>, least: &Lent<'_>, greatest: &Lent<'_>) -> Truth
    ensures { result ≡ between (owned value.now) (owned least.now) (owned greatest.now) }
{
    let from_least = compare(Comparison::GreaterOrEqual, value, least);
    from_least.and(compare(Comparison::LessOrEqual, value, greatest))
}

pub(crate) fn is_in(value: &Lent<'_>, choices: &[ExprTree], row: &[Value]) -> Truth
    requires { AreExactAt (map expr_of choices.now) row.now }
    ensures { result ≡ equals_one (owned value.now) (map expr_of choices.now) row.now }
{
    let mut truth = Truth::False;
    for choice in choices {
        if truth == Truth::True {
            return truth;
        }
        truth = truth.or(compare(Comparison::Equal, value, &eval_tree(choice, row)));
    }
    truth
}

pub(crate) fn is_like(value: &Lent<'_>, pattern: &str) -> Truth
    ensures { result ≡ liked (owned value.now) pattern.now }
{
    match value {
        Lent::Text(text) => truth_of(like(pattern, text)),
        _ => Truth::Unknown,
    }
}

fn passes(comparison: Comparison, order: Ordering) -> bool
    ensures { result ≡ passes comparison order }
{
    match comparison {
        Comparison::Equal => order.is_eq(),
        Comparison::NotEqual => order.is_ne(),
        Comparison::Less => order.is_lt(),
        Comparison::LessOrEqual => order.is_le(),
        Comparison::Greater => order.is_gt(),
        Comparison::GreaterOrEqual => order.is_ge(),
    }
}

fn truth_of(answer: bool) -> Truth
    ensures { result ≡ truth_of answer }
{
    if answer { Truth::True } else { Truth::False }
}
