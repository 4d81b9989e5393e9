//! The size that the value of an expression never exceeds while the columns keep theirs, and what is too wide on the way.
ghost use Rattle.std.specs.Prelude.{None, Some, if◌then◌else◌, map, nat_lt, ◌≡◌};
ghost use Rattle.cq_model.specs.Trees.{cond_of, expr_of};
ghost use Rattle.cq_model.specs.Width.{extent_limit, limits_of, fitting, number_limit, part_limit, value_size, widest, widest_limit, widest_of};

use cq_model::{Cond, CondTree, Expr, ExprTree, TOO_WIDE};
use cq_values::{DayPart, Value};

/// The size that the expression's value never exceeds, or None where a number written or worked out on the way may be too
/// wide. That of a column alone is any size.
///
/// The columns' values are of these sizes at most.
pub fn width_of(expr: &Expr, sizes: &[u128]) -> Option<u128>
    ensures { result ≡ fitting (extent_limit expr.now sizes.now) }
{
    tree_width(expr.tree(), sizes)
}

fn tree_width(tree: &ExprTree, sizes: &[u128]) -> Option<u128>
    ensures { result ≡ fitting (extent_limit (expr_of tree.now) sizes.now) }
{
    match tree {
        ExprTree::Column(place) => Some(sizes.get(*place).copied().unwrap_or(0)),
        ExprTree::Literal(value) => fit(value_size(value)),
        ExprTree::Negate(part) => fit(tree_width(part, sizes)?),
        ExprTree::Sum(first, rest) => {
            let mut sum = tree_width(first, sizes)?;
            for term in rest {
                sum = fit(sum.checked_add(tree_width(term, sizes)?)?)?;
            }
            Some(sum)
        }
        ExprTree::Product(first, rest) => {
            let mut product = tree_width(first, sizes)?;
            for factor in rest {
                product = fit(product.checked_mul(tree_width(factor, sizes)?)?)?;
            }
            Some(product)
        }
        ExprTree::Extract(day_part, part) => {
            tree_width(part, sizes)?;
            Some(part_limit(*day_part))
        }
    }
}

/// Whether no number written or worked out in the condition can be too wide. The columns' values are of these sizes at most.
pub fn fits(cond: &Cond, sizes: &[u128]) -> bool
    ensures { result ≡ nat_lt (widest_limit cond.now sizes.now) number_limit }
{
    tree_fits(cond.tree(), sizes)
}

fn tree_fits(tree: &CondTree, sizes: &[u128]) -> bool
    ensures { result ≡ nat_lt (widest_limit (cond_of tree.now) sizes.now) number_limit }
{
    match tree {
        CondTree::Compare(_, a, b) => expr_fits(a, sizes) && expr_fits(b, sizes),
        CondTree::IsNull(expr) => expr_fits(expr, sizes),
        CondTree::Between(expr, least, greatest) => {
            expr_fits(expr, sizes) && expr_fits(least, sizes) && expr_fits(greatest, sizes)
        }
        CondTree::In(expr, choices) => expr_fits(expr, sizes) && exprs_fit(choices, sizes),
        CondTree::Like(expr, _) => expr_fits(expr, sizes),
        CondTree::Not(part) => tree_fits(part, sizes),
        CondTree::And(first, rest) | CondTree::Or(first, rest) => {
            if !tree_fits(first, sizes) {
                return false;
            }
            for part in rest {
                if !tree_fits(part, sizes) {
                    return false;
                }
            }
            true
        }
    }
}

fn expr_fits(tree: &ExprTree, sizes: &[u128]) -> bool
    ensures { result ≡ nat_lt (widest (limits_of sizes.now) (expr_of tree.now)) number_limit }
{
    tree_width(tree, sizes).is_some()
}

fn exprs_fit(trees: &[ExprTree], sizes: &[u128]) -> bool
    ensures { result ≡ nat_lt (widest_of (limits_of sizes.now) (map expr_of trees.now)) number_limit }
{
    trees.iter().all(|tree| expr_fits(tree, sizes))
}

fn fit(size: u128) -> Option<u128>
    ensures { result ≡ (if nat_lt size number_limit then Some size else None) }
{
    if size < TOO_WIDE { Some(size) } else { None }
}

/// How far from 0 a number is; 0 of another value.
pub fn value_size(value: &Value) -> u128
    ensures { result ≡ value_size value.now }
{
    match value {
        Value::Number(n) => n.unsigned_abs(),
        _ => 0,
    }
}

/// The greatest year, month or day of a month.
pub fn part_limit(part: DayPart) -> u128
    ensures { result ≡ part_limit part }
{
    match part {
        DayPart::Year => 9999,
        DayPart::Month => 12,
        DayPart::Day => 31,
    }
}
