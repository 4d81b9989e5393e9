//! Segments and pieces of which no row can pass the conditions of a scan.
//!
//! A scan asks before it reads a segment, and of one that it reads before each piece, and goes on behind it where the
//! bounds of its columns rule each row out. A comparison of a column with a constant, BETWEEN, IN and IS NULL are asked
//! of the bounds of a segment, comparisons of those of a piece, and what AND joins part by part; any other condition may
//! hold. A constant is a literal, or the negative of a number. A part costs one or two comparisons a segment or piece,
//! and takes no memory.
ghost use Rattle.std.specs.Bool.{OnFalse, OnTrue};
ghost use Rattle.std.specs.List.{filter};
ghost use Rattle.std.specs.Prelude.{◌<◌, ◌≡◌, ◌++◌, [], IfSome, length};
ghost use Rattle.cq_model.specs.Expr.{Not};
ghost use Rattle.cq_model.specs.Meaning.{keeps};
ghost use Rattle.cq_model.specs.Trees.{cond_of, expr_of};
ghost use Rattle.cq_operators_conditions.specs.Passing.{passing_rows};
ghost use Rattle.cq_operators_conditions.specs.Skipping.{IsColumn, NoneBetween, NoneCompares};
ghost use Rattle.cq_operators_conditions.specs.Skipping.{NoneHolds, NoneIn, NonePasses, bounded_rows};
ghost use Rattle.cq_segments.specs.ColumnTest.{NoneMatches};
ghost use Rattle.cq_segments_pieces.specs.Marked.{live};
ghost use Rattle.cq_table_columns.specs.Stored.{all_rows, front_rows, stored_marked};

use cq_model::{Cond, CondTree, ExprTree};
use cq_operators_scans::constant_of;
use cq_prims::turned;
use cq_segments::{ColumnTest, Segment, may_match};
use cq_segments_pieces::Columns;
use cq_table_columns::{Front, Stored};
use cq_values::Comparison;

/// What is asked of a value: how it compares with another one, or whether it is NULL.
#[derive(Clone, Copy)]
enum ValueTest<'c> {
    Compare(Comparison, &'c ExprTree),
    IsNull,
    IsNotNull,
}

/// Rows of which columns have bounds.
#[derive(Clone, Copy)]
enum Bounded<'a> {
    /// All rows of a segment.
    Segment(&'a Segment),
    /// Up to 1,024 rows.
    Part(&'a Columns),
}

impl Bounded<'_> {
    /// Whether one of the rows may make the test True.
    fn may_match(&self, test: &ColumnTest<'_>) -> bool
        ensures { OnFalse result (NoneMatches test.now (bounded_rows self.now)) }
    {
        match self {
            Bounded::Segment(segment) => segment.may_match(test),
            Bounded::Part(columns) => may_match(*columns, test),
        }
    }
}

/// The segment that comes next and the rows behind it, where no row of it can pass all conditions. In these the values
/// of a row stand behind so many others.
pub fn split_missed<'a>(
    before: usize,
    conditions: &[&CondTree],
    rows: &Stored<'a>,
) -> Option<(&'a Segment, Stored<'a>)>
    ensures parts { IfSome result (λ s. stored_marked rows.now ≡ s.0.now ++ stored_marked s.1) }
    ensures rows { IfSome result (λ s. all_rows rows.now ≡ live s.0.now ++ all_rows s.1) }
    ensures some { IfSome result (λ s. 0 < length (live s.0.now)) }
    ensures none { IfSome result (λ s. passing_rows before conditions.now (live s.0.now) ≡ []) }
{
    let (segment, rest) = rows.split_segment()?;
    for condition in conditions {
        if !may_hold(&Bounded::Segment(segment), before, *condition) {
            return Some((segment, rest));
        }
    }
    None
}

/// The same of rows of which WHERE can keep none.
pub fn split_unkept<'a>(
    condition: &Option<Cond>,
    rows: &Stored<'a>,
) -> Option<(&'a Segment, Stored<'a>)>
    ensures parts { IfSome result (λ s. stored_marked rows.now ≡ s.0.now ++ stored_marked s.1) }
    ensures rows { IfSome result (λ s. all_rows rows.now ≡ live s.0.now ++ all_rows s.1) }
    ensures some { IfSome result (λ s. 0 < length (live s.0.now)) }
    ensures none { IfSome result (λ s. filter (keeps condition.now) (live s.0.now) ≡ []) }
{
    match condition {
        Some(condition) => split_missed(0, &[condition.tree()], rows),
        None => None,
    }
}

/// Whether no row at a front can pass all conditions, as far as its columns tell.
pub(crate) fn is_missed(before: usize, conditions: &[&CondTree], front: &Front<'_>) -> bool
    ensures { OnTrue result (passing_rows before conditions.now (front_rows front.now) ≡ []) }
{
    let Some(columns) = front.columns() else {
        return false;
    };
    for condition in conditions {
        if !may_hold(&Bounded::Part(columns), before, *condition) {
            return true;
        }
    }
    false
}

/// The same of rows of which WHERE can keep none.
pub fn is_unkept(condition: &Option<Cond>, front: &Front<'_>) -> bool
    ensures { OnTrue result (filter (keeps condition.now) (front_rows front.now) ≡ []) }
{
    match condition {
        Some(condition) => is_missed(0, &[condition.tree()], front),
        None => false,
    }
}

/// Whether a condition may be True in one of the rows.
fn may_hold(rows: &Bounded<'_>, before: usize, condition: &CondTree) -> bool
    ensures { OnFalse result (NoneHolds before (cond_of condition.now) (bounded_rows rows.now)) }
{
    match condition {
        CondTree::Compare(comparison, a, b) => may_compare(rows, before, *comparison, a, b),
        CondTree::IsNull(expr) => may_pass(rows, before, expr, &ValueTest::IsNull),
        CondTree::Between(expr, least, greatest) => {
            may_be_between(rows, before, expr, least, greatest)
        }
        CondTree::In(expr, choices) => may_be_in(rows, before, expr, choices),
        CondTree::Not(part) => may_fail(rows, before, part),
        CondTree::And(first, rest) => {
            if !may_hold(rows, before, first) {
                return false;
            }
            for part in rest {
                if !may_hold(rows, before, part) {
                    return false;
                }
            }
            true
        }
        CondTree::Like(..) | CondTree::Or(..) => true,
    }
}

/// Whether the opposite of a condition may be True there: only that of IS NULL is asked of the bounds.
fn may_fail(rows: &Bounded<'_>, before: usize, condition: &CondTree) -> bool
    ensures { OnFalse result (NoneHolds before (Not (cond_of condition.now)) (bounded_rows rows.now)) }
{
    match condition {
        CondTree::IsNull(expr) => may_pass(rows, before, expr, &ValueTest::IsNotNull),
        _ => true,
    }
}

/// Whether a value may lie between two others in one of the rows.
fn may_be_between(
    rows: &Bounded<'_>,
    before: usize,
    expr: &ExprTree,
    least: &ExprTree,
    greatest: &ExprTree,
) -> bool
    ensures { OnFalse result (NoneBetween before expr.now least.now greatest.now (bounded_rows rows.now)) }
{
    may_compare(rows, before, Comparison::GreaterOrEqual, expr, least)
        && may_compare(rows, before, Comparison::LessOrEqual, expr, greatest)
}

/// Whether a value may be one of these in one of the rows.
fn may_be_in(rows: &Bounded<'_>, before: usize, expr: &ExprTree, choices: &[ExprTree]) -> bool
    ensures { OnFalse result (NoneIn before expr.now choices.now (bounded_rows rows.now)) }
{
    for choice in choices {
        if may_compare(rows, before, Comparison::Equal, expr, choice) {
            return true;
        }
    }
    false
}

/// Whether a comparison may be True in one of the rows: only that with a constant on one side is asked of the
/// bounds.
fn may_compare(
    rows: &Bounded<'_>,
    before: usize,
    comparison: Comparison,
    a: &ExprTree,
    b: &ExprTree,
) -> bool
    ensures { OnFalse result (NoneCompares before comparison a.now b.now (bounded_rows rows.now)) }
{
    let turned = turned(comparison);
    may_pass(rows, before, a, &ValueTest::Compare(comparison, b))
        && may_pass(rows, before, b, &ValueTest::Compare(turned, a))
}

/// Whether a value may pass the test there: that of a column alone is asked of the bounds, and a comparison with a
/// constant alone.
fn may_pass(rows: &Bounded<'_>, before: usize, expr: &ExprTree, test: &ValueTest<'_>) -> bool
    ensures { OnFalse result (NonePasses before test.now expr.now (bounded_rows rows.now)) }
{
    let Some(column) = stored_column(before, expr) else {
        return true;
    };
    match test {
        ValueTest::Compare(comparison, other) => {
            let Some(constant) = constant_of(other) else {
                return true;
            };
            rows.may_match(&ColumnTest::Compare(column, *comparison, constant))
        }
        ValueTest::IsNull => rows.may_match(&ColumnTest::IsNull(column)),
        ValueTest::IsNotNull => rows.may_match(&ColumnTest::IsNotNull(column)),
    }
}

/// The column of the rows that an expression is, if it is one.
fn stored_column(before: usize, expr: &ExprTree) -> Option<usize>
    ensures { IfSome result (IsColumn before (expr_of expr.now)) }
{
    match expr {
        ExprTree::Column(place) => place.checked_sub(before),
        _ => None,
    }
}
