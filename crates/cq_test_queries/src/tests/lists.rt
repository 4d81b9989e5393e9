//! The lists of queries, given step by step: of joined rows, of rows shown once, and up to a limit.
ghost use Rattle.cq_plan.specs.Chain.{HaveValues};

use super::opened::{Given, Step, given_by};
use super::queries::{both_columns, joined_by_the_first, numbered, rows_of};
use cq_table_columns::Stored;
use cq_values::Row;
use std::alloc::Global;
use std::test::Fail;

/// What the second columns of joined rows give: those whose first columns are equal.
fn joined(alloc: Global, rows: &[Row], others: &[Row]) -> Result<Given, Fail>
    requires rows { HaveValues 2 rows.now }
    requires others { HaveValues 2 others.now }
{
    let query = joined_by_the_first(alloc)?;
    let inputs = [Stored::of(rows), Stored::of(others)];
    let given = given_by(alloc, &query, None, &[2, 2], &inputs);
    drop(query);
    given
}

/// What both columns of rows give, each row once where it is so said, up to a limit.
fn alone(alloc: Global, rows: &[Row], distinct: bool, limit: Option<u128>) -> Result<Given, Fail>
    requires { HaveValues 2 rows.now }
{
    let query = both_columns(alloc, distinct)?;
    let given = given_by(alloc, &query, limit, &[2], &[Stored::of(rows)]);
    drop(query);
    given
}

/// Some rows, and then none for ever.
fn once(rows: usize) -> [Step; 5] {
    [Step::Rows(rows), Step::End, Step::End, Step::End, Step::End]
}

#[test]
fn a_row_is_given_with_the_one_row_of_its_key(rt: HostRuntime) -> Result<(), Fail> {
    let rows = rows_of(rt.alloc(), &[(1, 10), (2, 20), (3, 30)])?;
    let others = rows_of(rt.alloc(), &[(4, 400), (2, 200), (1, 100)])?;
    let given = joined(rt.alloc(), &rows, &others)?;
    assert!(rt; given.steps.as_slice() == once(2).as_slice());
    assert_eq!(rt; given.numbers.as_slice(), [10, 100, 20, 200].as_slice());
    Ok(())
}

#[test]
fn a_row_is_given_with_each_of_two_rows_of_its_key(rt: HostRuntime) -> Result<(), Fail> {
    let rows = rows_of(rt.alloc(), &[(1, 10), (2, 20), (3, 30)])?;
    let others = rows_of(rt.alloc(), &[(2, 201), (1, 100), (2, 200)])?;
    let given = joined(rt.alloc(), &rows, &others)?;
    assert!(rt; given.steps.as_slice() == once(3).as_slice());
    assert_eq!(rt;
        given.numbers.as_slice(),
        [10, 100, 20, 200, 20, 201].as_slice()
    );
    Ok(())
}

#[test]
fn joined_rows_go_on_in_the_next_batch(rt: HostRuntime) -> Result<(), Fail> {
    let rows = numbered(rt.alloc(), 7, 3)?;
    let others = numbered(rt.alloc(), 7, 700)?;
    let given = joined(rt.alloc(), &rows, &others)?;
    let steps = [
        Step::Rows(1024),
        Step::Rows(1024),
        Step::Rows(52),
        Step::End,
        Step::End,
    ];
    assert!(rt; given.steps.as_slice() == steps.as_slice());
    assert!(rt; given.numbers.len() == 4200);
    assert_eq!(rt; &given.numbers[4198..], [2, 699].as_slice());
    Ok(())
}

#[test]
fn where_no_keys_are_equal_no_row_is_given(rt: HostRuntime) -> Result<(), Fail> {
    let rows = rows_of(rt.alloc(), &[(1, 10), (2, 20)])?;
    let others = rows_of(rt.alloc(), &[(3, 30)])?;
    let given = joined(rt.alloc(), &rows, &others)?;
    assert!(rt; given.steps.as_slice() == [Step::End; 5].as_slice());
    assert!(rt; given.numbers.is_empty());
    Ok(())
}

#[test]
fn distinct_gives_each_row_once(rt: HostRuntime) -> Result<(), Fail> {
    let rows = rows_of(rt.alloc(), &[(2, 20), (1, 10), (2, 20), (2, 10), (1, 10)])?;
    let given = alone(rt.alloc(), &rows, true, None)?;
    assert!(rt; given.steps.as_slice() == once(3).as_slice());
    assert_eq!(rt; given.numbers.as_slice(), [1, 10, 2, 10, 2, 20].as_slice());
    Ok(())
}

#[test]
fn a_limit_below_a_batch_gives_so_many_rows(rt: HostRuntime) -> Result<(), Fail> {
    let rows = rows_of(rt.alloc(), &[(3, 30), (1, 10), (2, 20)])?;
    let given = alone(rt.alloc(), &rows, false, Some(2))?;
    assert!(rt; given.steps.as_slice() == once(2).as_slice());
    assert_eq!(rt; given.numbers.as_slice(), [1, 10, 2, 20].as_slice());
    Ok(())
}

#[test]
fn a_limit_ends_within_the_second_batch(rt: HostRuntime) -> Result<(), Fail> {
    let rows = numbered(rt.alloc(), 7, 2000)?;
    let given = alone(rt.alloc(), &rows, false, Some(1500))?;
    let steps = [
        Step::Rows(1024),
        Step::Rows(476),
        Step::End,
        Step::End,
        Step::End,
    ];
    assert!(rt; given.steps.as_slice() == steps.as_slice());
    assert!(rt; given.numbers.len() == 3000);
    assert_eq!(rt; &given.numbers[2998..], [7, 1499].as_slice());
    Ok(())
}
