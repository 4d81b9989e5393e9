//! Whether two conditions are one. Chains of AND and OR are read from their end, as those of sums and products are.
ghost use Rattle.std.specs.Prelude.{◌≡◌, map};
ghost use Rattle.cq_model.specs.Trees.{cond_of, expr_of};
ghost use Rattle.cq_model_core.specs.Same.{same_comparison as is_one_comparison, same_cond as is_one};
ghost use Rattle.cq_values.specs.Texts.{is_text};
ghost use Rattle.cq_plan_core.specs.Joined.{IsLast, IsTakenOff, chained, prefix_of, step_of};

use crate::exprs::same_expr;
use crate::lists::same_exprs;
use cq_model::{CondTree, ExprTree};
use cq_values::{Comparison, Text};

/// The first part of a chain and some of those behind it, joined by AND or else by OR.
#[derive(Clone, Copy)]
struct Joined<'a> {
    pub first: &'a CondTree,
    pub all: bool,
    pub rest: &'a [CondTree],
}

/// What is asked last in a condition, and of what.
#[derive(Clone, Copy)]
enum Asked<'a> {
    Compare(Comparison, &'a ExprTree, &'a ExprTree),
    IsNull(&'a ExprTree),
    Between(&'a ExprTree, &'a ExprTree, &'a ExprTree),
    In(&'a ExprTree, &'a [ExprTree]),
    Like(&'a ExprTree, &'a Text),
    Not(&'a CondTree),
    And(Joined<'a>, &'a CondTree),
    Or(Joined<'a>, &'a CondTree),
}

/// Whether two conditions are one.
pub(crate) fn same_cond(a: &CondTree, b: &CondTree) -> bool
    ensures { result ≡ is_one (cond_of a.now) (cond_of b.now) }
{
    is_prefix(a, whole(b))
}

/// The whole of a condition.
fn whole(tree: &CondTree) -> Joined<'_>
    ensures { prefix_of result ≡ cond_of tree.now }
{
    Joined {
        first: tree,
        all: true,
        rest: &[],
    }
}

/// What is asked last in a prefix of a chain.
fn last_asked(prefix: Joined<'_>) -> Asked<'_>
    ensures { step_of result ≡ prefix_of prefix.entry }
{
    asked_behind(prefix.first, prefix.all, prefix.rest)
}

/// What is asked last in a chain of a first part and others.
#[cycle(steps)]
fn asked_behind<'a>(first: &'a CondTree, all: bool, rest: &'a [CondTree]) -> Asked<'a>
    ensures { step_of result ≡ chained all (cond_of first.now) (map cond_of rest.now) }
{
    let Some((last, rest)) = rest.split_last() else {
        return asked_in(first);
    };
    let before = Joined { first, all, rest };
    if all {
        Asked::And(before, last)
    } else {
        Asked::Or(before, last)
    }
}

/// What is asked last in a condition.
#[cycle(steps)]
fn asked_in(tree: &CondTree) -> Asked<'_>
    ensures { step_of result ≡ cond_of tree.now }
{
    match tree {
        CondTree::Compare(comparison, a, b) => Asked::Compare(*comparison, a, b),
        CondTree::IsNull(value) => Asked::IsNull(value),
        CondTree::Between(value, least, greatest) => Asked::Between(value, least, greatest),
        CondTree::In(value, choices) => Asked::In(value, choices),
        CondTree::Like(value, pattern) => Asked::Like(value, pattern),
        CondTree::Not(part) => Asked::Not(part),
        CondTree::And(first, rest) => asked_behind(first, true, rest),
        CondTree::Or(first, rest) => asked_behind(first, false, rest),
    }
}

/// Whether a condition is a prefix of a chain.
#[cycle(prefixes)]
fn is_prefix(tree: &CondTree, prefix: Joined<'_>) -> bool
    ensures { result ≡ is_one (cond_of tree.now) (prefix_of prefix.entry) }
{
    match tree {
        CondTree::Compare(comparison, a, b) => match last_asked(prefix) {
            Asked::Compare(other, c, d) => {
                same_comparison(*comparison, other) && same_expr(a, c) && same_expr(b, d)
            }
            _ => false,
        },
        CondTree::IsNull(value) => match last_asked(prefix) {
            Asked::IsNull(other) => same_expr(value, other),
            _ => false,
        },
        CondTree::Between(value, least, greatest) => match last_asked(prefix) {
            Asked::Between(a, b, c) => {
                same_expr(value, a) && same_expr(least, b) && same_expr(greatest, c)
            }
            _ => false,
        },
        CondTree::In(value, choices) => match last_asked(prefix) {
            Asked::In(other, others) => same_expr(value, other) && same_exprs(choices, others),
            _ => false,
        },
        CondTree::Like(value, pattern) => match last_asked(prefix) {
            Asked::Like(other, text) => same_expr(value, other) && same_text(pattern, text),
            _ => false,
        },
        CondTree::Not(part) => match last_asked(prefix) {
            Asked::Not(other) => is_prefix(part, whole(other)),
            _ => false,
        },
        CondTree::And(first, rest) => match without(rest, true, prefix) {
            Some(left) => is_prefix(first, left),
            None => false,
        },
        CondTree::Or(first, rest) => match without(rest, false, prefix) {
            Some(left) => is_prefix(first, left),
            None => false,
        },
    }
}

/// What is left of a prefix once these parts were taken off its end, if they are there.
#[cycle(prefixes)]
fn without<'a>(parts: &[CondTree], all: bool, prefix: Joined<'a>) -> Option<Joined<'a>>
    ensures { IsTakenOff all (map cond_of parts.now) prefix.entry result }
{
    let mut left = prefix;
    for place in (0..parts.len()).rev() {
        let (before, last) = last_part(left, all)?;
        if !is_prefix(&parts[place], whole(last)) {
            return None;
        }
        left = before;
    }
    Some(left)
}

/// The last part that AND, or OR, joins, and what stands before it.
fn last_part<'a>(prefix: Joined<'a>, all: bool) -> Option<(Joined<'a>, &'a CondTree)>
    ensures { IsLast all prefix.entry result }
{
    match last_asked(prefix) {
        Asked::And(before, last) if all => Some((before, last)),
        Asked::Or(before, last) if !all => Some((before, last)),
        _ => None,
    }
}

fn same_comparison(a: Comparison, b: Comparison) -> bool
    ensures { result ≡ is_one_comparison a b }
{
    a == b
}

fn same_text(a: &Text, b: &Text) -> bool
    ensures { result ≡ is_text a.now b.now }
{
    a == b
}
