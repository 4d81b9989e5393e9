//! The same trees with their columns at other places.
ghost use Rattle.std.specs.Prelude.{◌≡◌, IfOk, map};
ghost use Rattle.cq_model.specs.Trees.{cond_of, expr_of};
ghost use Rattle.cq_model_terms.specs.Naming.{cond_by, expr_by};

use crate::naming::{Naming, place_by};
use cq_model::{CondTree, ExprTree};
use cq_values::both;
use std::alloc::{AllocError, Global};

/// The expression with each column at its new place.
#[cycle(exprs)]
pub fn renamed_expr(
    alloc: Global,
    tree: &ExprTree,
    naming: Naming<'_>,
) -> Result<ExprTree, AllocError>
    ensures { IfOk result (λ t. expr_of t ≡ expr_by naming.entry tree.now) }
{
    match tree {
        ExprTree::Column(place) => Ok(ExprTree::Column(place_by(naming, *place))),
        ExprTree::Literal(value) => Ok(ExprTree::Literal(value.copy(alloc)?)),
        ExprTree::Negate(part) => {
            let part = renamed_expr(alloc, part, naming)?;
            Ok(ExprTree::Negate(Box::new(alloc, part)?))
        }
        ExprTree::Sum(first, rest) => {
            let first = Box::new(alloc, renamed_expr(alloc, first, naming)?)?;
            let (first, rest) = both(first, renamed_exprs(alloc, rest, naming))?;
            Ok(ExprTree::Sum(first, rest))
        }
        ExprTree::Product(first, rest) => {
            let first = Box::new(alloc, renamed_expr(alloc, first, naming)?)?;
            let (first, rest) = both(first, renamed_exprs(alloc, rest, naming))?;
            Ok(ExprTree::Product(first, rest))
        }
        ExprTree::Extract(day_part, part) => {
            let part = renamed_expr(alloc, part, naming)?;
            Ok(ExprTree::Extract(*day_part, Box::new(alloc, part)?))
        }
    }
}

/// Each of several expressions.
#[cycle(exprs)]
fn renamed_exprs(
    alloc: Global,
    trees: &[ExprTree],
    naming: Naming<'_>,
) -> Result<Vec<ExprTree>, AllocError>
    ensures { IfOk result (λ v. map expr_of v.items ≡ map (expr_by naming.entry) trees.now) }
{
    let mut all = Vec::new(alloc);
    for tree in trees {
        all.push(renamed_expr(alloc, tree, naming)?)?;
    }
    Ok(all)
}

/// The condition with each column at its new place.
#[cycle(conds)]
pub fn renamed_cond(
    alloc: Global,
    tree: &CondTree,
    naming: Naming<'_>,
) -> Result<CondTree, AllocError>
    ensures { IfOk result (λ t. cond_of t ≡ cond_by naming.entry tree.now) }
{
    match tree {
        CondTree::Compare(comparison, a, b) => {
            let (a, b) = renamed_two(alloc, a, b, naming)?;
            Ok(CondTree::Compare(*comparison, a, b))
        }
        CondTree::IsNull(value) => Ok(CondTree::IsNull(renamed_expr(alloc, value, naming)?)),
        CondTree::Between(value, least, greatest) => {
            let value = renamed_expr(alloc, value, naming)?;
            let (value, ends) = both(value, renamed_two(alloc, least, greatest, naming))?;
            Ok(CondTree::Between(value, ends.0, ends.1))
        }
        CondTree::In(value, choices) => {
            let value = renamed_expr(alloc, value, naming)?;
            let (value, choices) = both(value, renamed_exprs(alloc, choices, naming))?;
            Ok(CondTree::In(value, choices))
        }
        CondTree::Like(value, pattern) => {
            let value = renamed_expr(alloc, value, naming)?;
            let (value, pattern) = both(value, pattern.copy(alloc))?;
            Ok(CondTree::Like(value, pattern))
        }
        CondTree::Not(part) => {
            let part = renamed_cond(alloc, part, naming)?;
            Ok(CondTree::Not(Box::new(alloc, part)?))
        }
        CondTree::And(first, rest) => {
            let first = Box::new(alloc, renamed_cond(alloc, first, naming)?)?;
            let (first, rest) = both(first, renamed_conds(alloc, rest, naming))?;
            Ok(CondTree::And(first, rest))
        }
        CondTree::Or(first, rest) => {
            let first = Box::new(alloc, renamed_cond(alloc, first, naming)?)?;
            let (first, rest) = both(first, renamed_conds(alloc, rest, naming))?;
            Ok(CondTree::Or(first, rest))
        }
    }
}

/// Each of several conditions.
#[cycle(conds)]
fn renamed_conds(
    alloc: Global,
    trees: &[CondTree],
    naming: Naming<'_>,
) -> Result<Vec<CondTree>, AllocError>
    ensures { IfOk result (λ v. map cond_of v.items ≡ map (cond_by naming.entry) trees.now) }
{
    let mut all = Vec::new(alloc);
    for tree in trees {
        all.push(renamed_cond(alloc, tree, naming)?)?;
    }
    Ok(all)
}

/// Two expressions.
fn renamed_two(
    alloc: Global,
    a: &ExprTree,
    b: &ExprTree,
    naming: Naming<'_>,
) -> Result<(ExprTree, ExprTree), AllocError>
    ensures a { IfOk result (λ r. expr_of r.0 ≡ expr_by naming.entry a.now) }
    ensures b { IfOk result (λ r. expr_of r.1 ≡ expr_by naming.entry b.now) }
{
    let a = renamed_expr(alloc, a, naming)?;
    both(a, renamed_expr(alloc, b, naming))
}
