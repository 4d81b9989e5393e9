//! The truth of a condition in each row of a scan.
ghost use Rattle.std.specs.Prelude.{◌≡◌, IfOk, length, map, true};
ghost use Rattle.std.specs.List.{AllByRecursion};
ghost use Rattle.std.specs.Simd.Lanes.{zip2};
ghost use Rattle.cq_values.specs.Comparison.{compared};
ghost use Rattle.cq_model.specs.Condition.{holds};
ghost use Rattle.cq_model.specs.Exact.{AreExactAt, AreExactIn, IsExactAt};
ghost use Rattle.cq_model.specs.Trees.{cond_of, expr_of};
ghost use Rattle.cq_operators_scans.specs.Nodes.{is_connective};
ghost use Rattle.cq_operators_scans.specs.Truths.{AreCompared, AreTruths, between_at, compared_at, is_liked_at, is_null_at, is_one_at};

use crate::constant::constant_of;
use crate::scan::Scan;
use crate::vectors::vector_of_tree;
use cq_model::{Cond, CondTree, ExprTree};
use cq_prims::{KnownTruths, compare, compare_known, is_null, like_known};
use cq_values::{Comparison, Lent, Truth};
use cq_vectors::Vector;
use cq_vectors_masks::TruthMask;
use std::alloc::{AllocError, Global};

/// The truth of the condition in each row. What is known of texts that fit patterns is kept for the next scan.
pub fn truths_of<'a>(
    alloc: Global,
    cond: &'a Cond,
    scan: &Scan<'a>,
    known: &mut KnownTruths<'a>,
) -> Result<TruthMask, AllocError>
    requires { AllByRecursion (AreExactIn cond.now) scan.now }
    ensures { IfOk result (λ truths. truths ≡ map (holds cond.now) scan.now) }
{
    truths_of_tree(alloc, cond.tree(), scan, known)
}

/// The same of a tree of the condition. Tests have none of the locals of what NOT, AND and OR join.
#[cycle(deciding)]
pub(crate) fn truths_of_tree<'a>(
    alloc: Global,
    tree: &'a CondTree,
    scan: &Scan<'a>,
    known: &mut KnownTruths<'a>,
) -> Result<TruthMask, AllocError>
    requires { AllByRecursion (AreExactIn (cond_of tree.now)) scan.now }
    ensures { IfOk result (λ truths. truths ≡ map (holds (cond_of tree.now)) scan.now) }
{
    match tree {
        CondTree::Compare(comparison, a, b) => compared_in(alloc, *comparison, a, b, scan, known),
        CondTree::IsNull(expr) => nulls_in(alloc, expr, scan),
        CondTree::Between(expr, least, greatest) => {
            between_in(alloc, expr, least, greatest, scan, known)
        }
        CondTree::In(expr, choices) => one_of_in(alloc, expr, choices, scan, known),
        CondTree::Like(expr, pattern) => likes_in(alloc, expr, pattern.as_str(), scan, known),
        CondTree::Not(..) | CondTree::And(..) | CondTree::Or(..) => connective_in(
            alloc, tree, scan, known,
        ),
    }
}

/// The same of NOT, AND and OR.
#[cycle(deciding)]
fn connective_in<'a>(
    alloc: Global,
    tree: &'a CondTree,
    scan: &Scan<'a>,
    known: &mut KnownTruths<'a>,
) -> Result<TruthMask, AllocError>
    requires connective { is_connective tree.now ≡ true }
    requires exact { AllByRecursion (AreExactIn (cond_of tree.now)) scan.now }
    ensures { IfOk result (λ truths. truths ≡ map (holds (cond_of tree.now)) scan.now) }
{
    match tree {
        CondTree::Not(part) => {
            let mut truths = truths_of_tree(alloc, part, scan, known)?;
            truths.negate();
            Ok(truths)
        }
        CondTree::And(first, rest) => {
            let mut truths = truths_of_tree(alloc, first, scan, known)?;
            for part in rest {
                truths.and_with(&truths_of_tree(alloc, part, scan, known)?);
            }
            Ok(truths)
        }
        CondTree::Or(first, rest) => {
            let mut truths = truths_of_tree(alloc, first, scan, known)?;
            for choice in rest {
                truths.or_with(&truths_of_tree(alloc, choice, scan, known)?);
            }
            Ok(truths)
        }
        _ => unreachable!(),
    }
}

fn compared_in<'a>(
    alloc: Global,
    comparison: Comparison,
    a: &'a ExprTree,
    b: &'a ExprTree,
    scan: &Scan<'a>,
    known: &mut KnownTruths<'a>,
) -> Result<TruthMask, AllocError>
    requires a { AllByRecursion (IsExactAt (expr_of a.now)) scan.now }
    requires b { AllByRecursion (IsExactAt (expr_of b.now)) scan.now }
    ensures { IfOk result (AreTruths (compared_at comparison a.now b.now) scan.now) }
{
    let a = vector_of_tree(alloc, a, scan)?;
    let truths = compared_with(alloc, comparison, a.vector(), b, scan, known);
    drop(a);
    truths
}

fn nulls_in<'a>(alloc: Global, expr: &'a ExprTree, scan: &Scan<'a>) -> Result<TruthMask, AllocError>
    requires { AllByRecursion (IsExactAt (expr_of expr.now)) scan.now }
    ensures { IfOk result (AreTruths (is_null_at expr.now) scan.now) }
{
    let values = vector_of_tree(alloc, expr, scan)?;
    let mut truths = TruthMask::new();
    is_null(values.vector(), &mut truths);
    drop(values);
    Ok(truths)
}

fn likes_in<'a>(
    alloc: Global,
    expr: &'a ExprTree,
    pattern: &'a str,
    scan: &Scan<'a>,
    known: &mut KnownTruths<'a>,
) -> Result<TruthMask, AllocError>
    requires { AllByRecursion (IsExactAt (expr_of expr.now)) scan.now }
    ensures { IfOk result (AreTruths (is_liked_at expr.now pattern.now) scan.now) }
{
    let values = vector_of_tree(alloc, expr, scan)?;
    let mut truths = TruthMask::new();
    let asked = like_known(alloc, values.vector(), pattern, known, &mut truths);
    drop(values);
    asked?;
    Ok(truths)
}

fn between_in<'a>(
    alloc: Global,
    expr: &'a ExprTree,
    least: &'a ExprTree,
    greatest: &'a ExprTree,
    scan: &Scan<'a>,
    known: &mut KnownTruths<'a>,
) -> Result<TruthMask, AllocError>
    requires value { AllByRecursion (IsExactAt (expr_of expr.now)) scan.now }
    requires least { AllByRecursion (IsExactAt (expr_of least.now)) scan.now }
    requires greatest { AllByRecursion (IsExactAt (expr_of greatest.now)) scan.now }
    ensures { IfOk result (AreTruths (between_at expr.now least.now greatest.now) scan.now) }
{
    let value = vector_of_tree(alloc, expr, scan)?;
    let (from, to) = (Comparison::GreaterOrEqual, Comparison::LessOrEqual);
    let from_least = compared_with(alloc, from, value.vector(), least, scan, known);
    let to_greatest = compared_with(alloc, to, value.vector(), greatest, scan, known);
    drop(value);
    let mut truths = from_least?;
    truths.and_with(&to_greatest?);
    Ok(truths)
}

/// Whether the value equals one of the choices.
fn one_of_in<'a>(
    alloc: Global,
    expr: &'a ExprTree,
    choices: &'a [ExprTree],
    scan: &Scan<'a>,
    known: &mut KnownTruths<'a>,
) -> Result<TruthMask, AllocError>
    requires value { AllByRecursion (IsExactAt (expr_of expr.now)) scan.now }
    requires choices { AllByRecursion (AreExactAt (map expr_of choices.now)) scan.now }
    ensures { IfOk result (AreTruths (is_one_at expr.now choices.now) scan.now) }
{
    let value = vector_of_tree(alloc, expr, scan)?;
    let mut truths = TruthMask::new();
    truths.set_all(Truth::False, scan.len());
    for choice in choices {
        match compared_with(
            alloc,
            Comparison::Equal,
            value.vector(),
            choice,
            scan,
            known,
        ) {
            Ok(equal) => truths.or_with(&equal),
            Err(fault) => {
                drop(value);
                return Err(fault);
            }
        }
    }
    drop(value);
    Ok(truths)
}

/// These values, compared with the expression's: with a text by what is known of their entries.
fn compared_with<'a>(
    alloc: Global,
    comparison: Comparison,
    values: &Vector<'a>,
    expr: &'a ExprTree,
    scan: &Scan<'a>,
    known: &mut KnownTruths<'a>,
) -> Result<TruthMask, AllocError>
    requires exact { AllByRecursion (IsExactAt (expr_of expr.now)) scan.now }
    requires same { length values.now ≡ length scan.now }
    ensures { IfOk result (AreCompared comparison values.now expr.now scan.now) }
{
    if let Some(Lent::Text(text)) = constant_of(expr) {
        let mut truths = TruthMask::new();
        let is_known = compare_known(alloc, comparison, values, text, known, &mut truths)?;
        if is_known {
            return Ok(truths);
        }
    }
    let others = vector_of_tree(alloc, expr, scan)?;
    let truths = compared(comparison, values, others.vector());
    drop(others);
    Ok(truths)
}

fn compared(comparison: Comparison, a: &Vector<'_>, b: &Vector<'_>) -> TruthMask
    requires { length a.now ≡ length b.now }
    ensures { result ≡ zip2 (compared comparison) a.now b.now }
{
    let mut truths = TruthMask::new();
    compare(comparison, a, b, &mut truths);
    truths
}
