//! Groups, given step by step, and totals that are too large.
ghost use Rattle.std.specs.Prelude.{◌≡◌, []};
ghost use Rattle.cq_plan.specs.Chain.{HaveValues};
ghost use Rattle.cq_test_queries.specs.Opened.{IsOpenTo};

use super::opened::{Given, Step, given_by};
use super::queries::{groups_of, is_above, rows_of};
use cq_model::{Aggregate, Expr, Query, ShowFault};
use cq_table_columns::Stored;
use cq_values::Row;
use std::alloc::Global;
use std::test::Fail;

/// What a query of one source gives of rows.
fn given_of(alloc: Global, query: &Query, rows: &[Row]) -> Result<Given, Fail>
    requires always { IsOpenTo query.now }
    requires alone { query.now.joins ≡ [] }
    requires rows { HaveValues 2 rows.now }
{
    given_by(alloc, query, None, &[2], &[Stored::of(rows)])
}

/// What groups give with how many rows each has, where there are more than some.
fn counted(alloc: Global, rows: &[Row], more: i128) -> Result<Given, Fail>
    requires { HaveValues 2 rows.now }
{
    let query = groups_of(alloc, Aggregate::CountAll, is_above(1, more), 1)?;
    let given = given_of(alloc, &query, rows);
    drop(query);
    given
}

/// What the keys of groups give that are above a number. Each has a total, which is shown or not.
fn summed(alloc: Global, rows: &[Row], above: i128, is_shown: bool) -> Result<Given, Fail>
    requires { HaveValues 2 rows.now }
{
    let second = if is_shown { 1 } else { 0 };
    let total = Aggregate::Sum(Expr::column(1));
    let query = groups_of(alloc, total, is_above(0, above), second)?;
    let given = given_of(alloc, &query, rows);
    drop(query);
    given
}

/// What groups give with how many different values each has, where there are more than some.
fn different(alloc: Global, rows: &[Row], more: i128) -> Result<Given, Fail>
    requires { HaveValues 2 rows.now }
{
    let count = Aggregate::CountDistinct(Expr::column(1));
    let query = groups_of(alloc, count, is_above(1, more), 1)?;
    let given = given_of(alloc, &query, rows);
    drop(query);
    given
}

/// A total that cannot be shown, for ever.
const TOO_LARGE: [Step; 5] = [Step::Fault(ShowFault::SumOutOfRange); 5];

#[test]
fn having_keeps_groups_by_what_they_show(rt: HostRuntime) -> Result<(), Fail> {
    let rows = rows_of(
        rt.alloc(),
        &[(3, 1), (1, 2), (2, 3), (3, 4), (1, 5), (3, 6)],
    )?;
    let given = counted(rt.alloc(), &rows, 1)?;
    let steps = [Step::Rows(2), Step::End, Step::End, Step::End, Step::End];
    assert!(rt; given.steps.as_slice() == steps.as_slice());
    assert_eq!(rt; given.numbers.as_slice(), [1, 2, 3, 3].as_slice());
    Ok(())
}

#[test]
fn a_value_of_two_groups_counts_once_in_each(rt: HostRuntime) -> Result<(), Fail> {
    let rows = rows_of(
        rt.alloc(),
        &[(3, 1), (1, 1), (3, 1), (3, 4), (1, 1), (2, 6), (3, 4)],
    )?;
    let given = different(rt.alloc(), &rows, 0)?;
    let steps = [Step::Rows(3), Step::End, Step::End, Step::End, Step::End];
    assert!(rt; given.steps.as_slice() == steps.as_slice());
    assert_eq!(rt; given.numbers.as_slice(), [1, 1, 2, 1, 3, 2].as_slice());
    Ok(())
}

#[test]
fn having_keeps_groups_by_their_different_values(rt: HostRuntime) -> Result<(), Fail> {
    let rows = rows_of(rt.alloc(), &[(3, 1), (1, 2), (3, 1), (1, 5), (3, 1)])?;
    let given = different(rt.alloc(), &rows, 1)?;
    let steps = [Step::Rows(1), Step::End, Step::End, Step::End, Step::End];
    assert!(rt; given.steps.as_slice() == steps.as_slice());
    assert_eq!(rt; given.numbers.as_slice(), [1, 2].as_slice());
    Ok(())
}

#[test]
fn where_having_keeps_no_group_no_row_is_given(rt: HostRuntime) -> Result<(), Fail> {
    let rows = rows_of(rt.alloc(), &[(3, 1), (1, 2), (3, 4)])?;
    let given = counted(rt.alloc(), &rows, 2)?;
    assert!(rt; given.steps.as_slice() == [Step::End; 5].as_slice());
    assert!(rt; given.numbers.is_empty());
    Ok(())
}

#[test]
fn a_total_of_the_greatest_number_is_given(rt: HostRuntime) -> Result<(), Fail> {
    let rows = rows_of(rt.alloc(), &[(2, i128::MAX - 1), (2, 1), (1, 5)])?;
    let given = summed(rt.alloc(), &rows, 1, true)?;
    let steps = [Step::Rows(1), Step::End, Step::End, Step::End, Step::End];
    assert!(rt; given.steps.as_slice() == steps.as_slice());
    assert_eq!(rt; given.numbers.as_slice(), [2, i128::MAX].as_slice());
    Ok(())
}

#[test]
fn a_total_out_of_range_is_told_for_ever(rt: HostRuntime) -> Result<(), Fail> {
    let rows = rows_of(rt.alloc(), &[(2, i128::MAX), (2, 1), (1, 5)])?;
    let given = summed(rt.alloc(), &rows, 0, true)?;
    assert!(rt; given.steps.as_slice() == TOO_LARGE.as_slice());
    Ok(())
}

#[test]
fn so_is_one_that_is_not_shown_of_a_group_that_having_drops(rt: HostRuntime) -> Result<(), Fail> {
    let rows = rows_of(rt.alloc(), &[(1, i128::MAX), (1, 1), (2, 5)])?;
    let given = summed(rt.alloc(), &rows, 1, false)?;
    assert!(rt; given.steps.as_slice() == TOO_LARGE.as_slice());
    Ok(())
}
