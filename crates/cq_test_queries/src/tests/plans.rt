//! Queries of one source, over rows of the lengths at which batches end, with NULL at both ends.
ghost use Rattle.std.specs.Prelude.{◌≡◌, [], IfOk, Some};
ghost use Rattle.cq_operators_joins.specs.Linked.{IsExactBy};
ghost use Rattle.cq_plan.specs.Chain.{HaveValues};
ghost use Rattle.cq_test_queries.specs.Opened.{IsOpenTo};
ghost use Rattle.cq_values.specs.Value.{Row as Values};

use super::opened::{Given, Step, given_by};
use super::queries::two_columns;
use cq_model::{Cond, CondTree, ExprTree, Query, Shape, Source};
use cq_table_columns::Stored;
use cq_values::{Row, Seq, Value};
use std::alloc::{AllocError, Global};
use std::test::Fail;

/// Rows of two values: the place, which is NULL in the first row and in the last, and the place again.
fn numbered(alloc: Global, len: usize) -> Result<Vec<Row>, AllocError>
    ensures { IfOk result (λ rows. HaveValues 2 rows.items) }
{
    let mut rows = Vec::new(alloc);
    for place in 0..len {
        let number = Value::Number(place as i128);
        let is_end = place == 0 || place == len - 1;
        let mut row = Row::new(alloc);
        row.push(if is_end { Value::Null } else { number })?;
        row.push(Value::Number(place as i128))?;
        rows.push(row)?;
    }
    Ok(rows)
}

/// The second column and then the first, where the filter is True.
fn both_where(alloc: Global, filter: Option<Cond>) -> Result<Query, AllocError>
    requires { (row : Values) → IsExactBy filter row }
    ensures always { IfOk result IsOpenTo }
    ensures alone { IfOk result (λ q. q.joins ≡ []) }
{
    match two_columns(alloc, 1, 0) {
        Ok(items) => Ok(Query {
            first: Source::Table(0),
            joins: Seq::new(alloc),
            filter,
            shape: Shape::Plain,
            items,
            distinct: false,
        }),
        Err(fault) => {
            drop(filter);
            Err(fault)
        }
    }
}

/// What a query for both columns gives of rows of so many places, where the filter is True.
fn given_of(alloc: Global, filter: Option<Cond>, len: usize) -> Result<Given, Fail>
    requires { (row : Values) → IsExactBy filter row }
{
    let query = both_where(alloc, filter)?;
    let given = given_on(alloc, &query, len);
    drop(query);
    given
}

/// What the query gives of them.
fn given_on(alloc: Global, query: &Query, len: usize) -> Result<Given, Fail>
    requires always { IsOpenTo query.now }
    requires alone { query.now.joins ≡ [] }
{
    let rows = numbered(alloc, len)?;
    let given = given_by(alloc, query, None, &[2], &[Stored::of(&rows)]);
    drop(rows);
    given
}

/// The number of the last row that came, and -1 where none did.
fn last_number(given: &Given) -> i128 {
    let numbers = given.numbers.as_slice();
    if numbers.len() < 2 {
        return -1;
    }
    numbers[numbers.len() - 2]
}

/// Whether the first value is NULL.
fn first_is_null() -> Cond
    ensures { (row : Values) → IsExactBy (Some result) row }
{
    Cond::new(CondTree::IsNull(ExprTree::Column(0)))
}

#[test]
fn each_row_is_given_once_and_then_none_for_ever(rt: HostRuntime) -> Result<(), Fail> {
    // the length, how many rows the first three of five steps give, and the last row's number
    let cases = [
        (0, [Step::End, Step::End, Step::End], -1),
        (1, [Step::Rows(1), Step::End, Step::End], 0),
        (1023, [Step::Rows(1023), Step::End, Step::End], 1022),
        (1024, [Step::Rows(1024), Step::End, Step::End], 1023),
        (1025, [Step::Rows(1024), Step::Rows(1), Step::End], 1024),
        (
            2049,
            [Step::Rows(1024), Step::Rows(1024), Step::Rows(1)],
            2048,
        ),
    ];
    for (len, [first, second, third], last) in cases {
        let given = given_of(rt.alloc(), None, len)?;
        let steps = [first, second, third, Step::End, Step::End];
        assert!(rt; given.steps.as_slice() == steps.as_slice(), "length {len}");
        assert!(rt; last_number(&given) == last, "last of {len}");
    }
    Ok(())
}

#[test]
fn the_filter_keeps_both_ends(rt: HostRuntime) -> Result<(), Fail> {
    // the length, how many rows are kept, and the number of the last one
    let cases = [
        (1, 1, 0),
        (1023, 2, 1022),
        (1024, 2, 1023),
        (1025, 2, 1024),
        (2049, 2, 2048),
    ];
    for (len, kept, last) in cases {
        let given = given_of(rt.alloc(), Some(first_is_null()), len)?;
        let steps = [Step::Rows(kept), Step::End, Step::End, Step::End, Step::End];
        assert!(rt; given.steps.as_slice() == steps.as_slice(), "length {len}");
        assert!(rt; last_number(&given) == last, "last of {len}");
    }
    Ok(())
}
