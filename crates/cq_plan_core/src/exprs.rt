//! Whether two expressions are one.
//!
//! A chain stands for its parts grouped to the left, so it is read from its end: the last part is taken off, and what is
//! left is a [`Prefix`]. Two chains are one where the parts are that are taken off, in turn, though one may hold a whole
//! chain as its first part.
ghost use Rattle.std.specs.Prelude.{◌≡◌, map};
ghost use Rattle.cq_model.specs.Trees.{expr_of};
ghost use Rattle.cq_model_core.specs.Same.{same_expr as is_one, same_part as is_one_part};
ghost use Rattle.cq_plan_core.specs.Prefixes.{IsLast, IsTakenOff, chained, prefix_of, step_of};

use cq_model::ExprTree;
use cq_values::{DayPart, Value, cmp_total};

/// The first part of a chain and some of those behind it, which are added or else multiplied.
#[derive(Clone, Copy)]
pub(crate) struct Prefix<'a> {
    pub first: &'a ExprTree,
    pub sums: bool,
    pub rest: &'a [ExprTree],
}

/// What is done last in an expression, and with what.
#[derive(Clone, Copy)]
pub(crate) enum Step<'a> {
    Column(usize),
    Literal(&'a Value),
    Negate(&'a ExprTree),
    Plus(Prefix<'a>, &'a ExprTree),
    Times(Prefix<'a>, &'a ExprTree),
    Extract(DayPart, &'a ExprTree),
}

/// Whether two expressions are one.
pub(crate) fn same_expr(a: &ExprTree, b: &ExprTree) -> bool
    ensures { result ≡ is_one (expr_of a.now) (expr_of b.now) }
{
    is_prefix(a, whole(b))
}

/// The whole of an expression.
fn whole(tree: &ExprTree) -> Prefix<'_>
    ensures { prefix_of result ≡ expr_of tree.now }
{
    Prefix {
        first: tree,
        sums: true,
        rest: &[],
    }
}

/// What is done last in a prefix of a chain.
fn last_step(prefix: Prefix<'_>) -> Step<'_>
    ensures { step_of result ≡ prefix_of prefix.entry }
{
    step_behind(prefix.first, prefix.sums, prefix.rest)
}

/// What is done last in a chain of a first part and others.
#[cycle(steps)]
fn step_behind<'a>(first: &'a ExprTree, sums: bool, rest: &'a [ExprTree]) -> Step<'a>
    ensures { step_of result ≡ chained sums (expr_of first.now) (map expr_of rest.now) }
{
    let Some((last, rest)) = rest.split_last() else {
        return step_in(first);
    };
    let before = Prefix { first, sums, rest };
    if sums {
        Step::Plus(before, last)
    } else {
        Step::Times(before, last)
    }
}

/// What is done last in an expression.
#[cycle(steps)]
fn step_in(tree: &ExprTree) -> Step<'_>
    ensures { step_of result ≡ expr_of tree.now }
{
    match tree {
        ExprTree::Column(place) => Step::Column(*place),
        ExprTree::Literal(value) => Step::Literal(value),
        ExprTree::Negate(part) => Step::Negate(part),
        ExprTree::Extract(day_part, part) => Step::Extract(*day_part, part),
        ExprTree::Sum(first, rest) => step_behind(first, true, rest),
        ExprTree::Product(first, rest) => step_behind(first, false, rest),
    }
}

/// Whether an expression is a prefix of a chain.
#[cycle(prefixes)]
fn is_prefix(tree: &ExprTree, prefix: Prefix<'_>) -> bool
    ensures { result ≡ is_one (expr_of tree.now) (prefix_of prefix.entry) }
{
    match tree {
        ExprTree::Column(place) => match last_step(prefix) {
            Step::Column(at) => *place == at,
            _ => false,
        },
        ExprTree::Literal(value) => match last_step(prefix) {
            Step::Literal(other) => cmp_total(value, other).is_eq(),
            _ => false,
        },
        ExprTree::Negate(part) => match last_step(prefix) {
            Step::Negate(other) => is_prefix(part, whole(other)),
            _ => false,
        },
        ExprTree::Extract(day_part, part) => match last_step(prefix) {
            Step::Extract(at, other) => {
                same_part(*day_part, at) && is_prefix(part, whole(other))
            }
            _ => false,
        },
        ExprTree::Sum(first, rest) => match without(rest, true, prefix) {
            Some(left) => is_prefix(first, left),
            None => false,
        },
        ExprTree::Product(first, rest) => match without(rest, false, prefix) {
            Some(left) => is_prefix(first, left),
            None => false,
        },
    }
}

/// What is left of a prefix once these parts were taken off its end, if they are there.
#[cycle(prefixes)]
fn without<'a>(parts: &[ExprTree], sums: bool, prefix: Prefix<'a>) -> Option<Prefix<'a>>
    ensures { IsTakenOff sums (map expr_of parts.now) prefix.entry result }
{
    let mut left = prefix;
    for place in (0..parts.len()).rev() {
        let (before, last) = last_part(left, sums)?;
        if !is_prefix(&parts[place], whole(last)) {
            return None;
        }
        left = before;
    }
    Some(left)
}

/// The last part that is added, or multiplied, and what stands before it.
fn last_part<'a>(prefix: Prefix<'a>, sums: bool) -> Option<(Prefix<'a>, &'a ExprTree)>
    ensures { IsLast sums prefix.entry result }
{
    match last_step(prefix) {
        Step::Plus(before, last) if sums => Some((before, last)),
        Step::Times(before, last) if !sums => Some((before, last)),
        _ => None,
    }
}

fn same_part(a: DayPart, b: DayPart) -> bool
    ensures { result ≡ is_one_part a b }
{
    a == b
}
