//! Whether lists of expressions, of aggregates and of joins are one, part by part.
ghost use Rattle.std.specs.Cmp.Lexicographic.{pointwise};
ghost use Rattle.std.specs.Prelude.{◌≡◌, map};
ghost use Rattle.cq_model.specs.Sources.{same_source as is_one_source};
ghost use Rattle.cq_model.specs.Trees.{expr_of};
ghost use Rattle.cq_model_core.specs.Core.{same_equality, same_join as is_one_join};
ghost use Rattle.cq_model_core.specs.Same.{same_aggregate as is_one_aggregate, same_expr as is_one_expr};

use crate::exprs::same_expr;
use cq_model::{Aggregate, Equality, Expr, ExprTree, Join, Source};

/// The choices behind IN.
pub(crate) fn same_exprs(a: &[ExprTree], b: &[ExprTree]) -> bool
    ensures { result ≡ pointwise is_one_expr (map expr_of a.now) (map expr_of b.now) }
{
    if a.len() != b.len() {
        return false;
    }
    for place in 0..a.len() {
        if !same_expr(&a[place], &b[place]) {
            return false;
        }
    }
    true
}

/// Items.
pub(crate) fn same_items(a: &[Expr], b: &[Expr]) -> bool
    ensures { result ≡ pointwise is_one_expr a.now b.now }
{
    if a.len() != b.len() {
        return false;
    }
    for place in 0..a.len() {
        if !same_expr(a[place].tree(), b[place].tree()) {
            return false;
        }
    }
    true
}

pub(crate) fn same_aggregates(a: &[Aggregate], b: &[Aggregate]) -> bool
    ensures { result ≡ pointwise is_one_aggregate a.now b.now }
{
    if a.len() != b.len() {
        return false;
    }
    for place in 0..a.len() {
        if !same_aggregate(&a[place], &b[place]) {
            return false;
        }
    }
    true
}

fn same_aggregate(a: &Aggregate, b: &Aggregate) -> bool
    ensures { result ≡ is_one_aggregate a.now b.now }
{
    match (a, b) {
        (Aggregate::CountAll, Aggregate::CountAll) => true,
        (Aggregate::Count(a), Aggregate::Count(b))
        | (Aggregate::CountDistinct(a), Aggregate::CountDistinct(b))
        | (Aggregate::Sum(a), Aggregate::Sum(b))
        | (Aggregate::Min(a), Aggregate::Min(b))
        | (Aggregate::Max(a), Aggregate::Max(b)) => same_expr(a.tree(), b.tree()),
        _ => false,
    }
}

pub(crate) fn same_joins(a: &[Join], b: &[Join]) -> bool
    ensures { result ≡ pointwise is_one_join a.now b.now }
{
    if a.len() != b.len() {
        return false;
    }
    for place in 0..a.len() {
        if !same_join(&a[place], &b[place]) {
            return false;
        }
    }
    true
}

fn same_join(a: &Join, b: &Join) -> bool
    ensures { result ≡ is_one_join a.now b.now }
{
    same_source(a.source, b.source) && same_equalities(a.on.as_slice(), b.on.as_slice())
}

pub(crate) fn same_source(a: Source, b: Source) -> bool
    ensures { result ≡ is_one_source a b }
{
    a == b
}

/// The columns that ON compares, each by its place.
fn same_equalities(a: &[Equality], b: &[Equality]) -> bool
    ensures { result ≡ pointwise same_equality a.now b.now }
{
    a == b
}
