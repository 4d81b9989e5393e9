//! A test of one column, by which a scan may skip rows.
ghost use Rattle.std.specs.Bool.{OnFalse};
ghost use Rattle.std.specs.Ordering.{is_gt};
ghost use Rattle.std.specs.Prelude.{◌≡◌};
ghost use Rattle.cq_encodings_numbers.specs.Bounds.{ends_of};
ghost use Rattle.cq_segments.specs.ColumnTest.{NoneBetween, NoneMatches, NonePasses, RulesOut, asked_column};
ghost use Rattle.cq_values.specs.Lent.{owned};
ghost use Rattle.cq_values.specs.Order.{value_cmp};

use cq_encodings_numbers::Bounds;
use cq_segments_pieces::Columns;
use cq_values::{Comparison, Lent, cmp_lent};

/// What a scan asks of the rows of a segment before it reads them: a column by its place, counted from 0.
#[derive(Clone, Copy)]
pub enum ColumnTest<'a> {
    /// Its value is compared with a constant.
    Compare(usize, Comparison, Lent<'a>),
    IsNull(usize),
    IsNotNull(usize),
}

impl ColumnTest<'_> {
    /// The place of the column.
    pub(crate) fn column(&self) -> usize
        ensures { result ≡ asked_column self.now }
    {
        match self {
            ColumnTest::Compare(column, _, _) => *column,
            ColumnTest::IsNull(column) => *column,
            ColumnTest::IsNotNull(column) => *column,
        }
    }

    /// Whether a value within the bounds of the column may make the test True.
    pub(crate) fn may_hold(&self, bounds: &Bounds<'_>) -> bool
        ensures { OnFalse result (RulesOut bounds.now self.now) }
    {
        match self {
            ColumnTest::Compare(_column, comparison, constant) => {
                may_pass(bounds, *comparison, constant)
            }
            ColumnTest::IsNull(_column) => bounds.has_null,
            ColumnTest::IsNotNull(_column) => match &bounds.ends {
                Some(_) => true,
                None => false,
            },
        }
    }
}

/// Whether one of at most 1,024 rows may make the test True. By `false` a scan may skip them, and no row is lost.
pub fn may_match(columns: &Columns, test: &ColumnTest<'_>) -> bool
    ensures { OnFalse result (NoneMatches test.now columns.now) }
{
    match columns.bounds(test.column()) {
        Some(bounds) => test.may_hold(&bounds),
        None => true,
    }
}

/// Whether a value between the ends may make the comparison with a constant True.
fn may_pass(bounds: &Bounds<'_>, comparison: Comparison, constant: &Lent<'_>) -> bool
    ensures { OnFalse result (NonePasses comparison (owned constant.now) (ends_of bounds.now)) }
{
    match &bounds.ends {
        Some((least, greatest)) => may_lie_between(least, greatest, comparison, constant),
        None => false,
    }
}

/// Whether a value that passes the comparison may lie between the least and the greatest. One that differs always may.
fn may_lie_between(
    least: &Lent<'_>,
    greatest: &Lent<'_>,
    comparison: Comparison,
    constant: &Lent<'_>,
) -> bool
    ensures { OnFalse result (NoneBetween (owned least.now) (owned greatest.now) comparison (owned constant.now)) }
{
    match comparison {
        Comparison::Equal => {
            if is_after(least, constant) {
                return false;
            }
            !is_after(constant, greatest)
        }
        Comparison::NotEqual => true,
        Comparison::Less => is_after(constant, least),
        Comparison::LessOrEqual => !is_after(least, constant),
        Comparison::Greater => is_after(greatest, constant),
        Comparison::GreaterOrEqual => !is_after(constant, greatest),
    }
}

fn is_after(a: &Lent<'_>, b: &Lent<'_>) -> bool
    ensures { result ≡ is_gt (value_cmp (owned a.now) (owned b.now)) }
{
    cmp_lent(a, b).is_gt()
}
