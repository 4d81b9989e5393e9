//! Queries that are opened, and what each of five steps gives.
ghost use Rattle.std.specs.Prelude.{◌+◌, ◌≡◌, length};
ghost use Rattle.cq_operators.specs.Selected.{rows_of_all};
ghost use Rattle.cq_test_queries.specs.Opened.{HaveWidths, IsOpenTo};

use cq_model::{Order, Query, ShowFault};
use cq_operators::Exec;
use cq_plan::plan;
use cq_table_columns::Stored;
use cq_values::{Lent, Seq};
use cq_values_rows::RowList;
use cq_vectors::{Batch, Vector};
use cq_vectors_masks::Selection;
use std::alloc::{AllocError, Global};
use std::test::Fail;

/// What a step did.
#[derive(Clone, Copy, Debug, PartialEq, Eq)]
pub(crate) enum Step {
    /// It gave so many rows.
    Rows(usize),
    /// No row remained.
    End,
    Fault(ShowFault),
}

/// What each of five steps did, and the numbers of all rows that came, row by row: -1 for NULL.
#[derive(Drop)]
pub(crate) struct Given {
    pub(crate) steps: Vec<Step>,
    pub(crate) numbers: Vec<i128>,
}

/// What a query gives of the rows of its sources, which have so many columns each, up to a limit.
pub(crate) fn given_by(
    alloc: Global,
    query: &Query,
    limit: Option<u128>,
    widths: &[usize],
    inputs: &[Stored<'_>],
) -> Result<Given, Fail>
    requires always { IsOpenTo query.now }
    requires count { length widths.now ≡ length query.now.joins + 1 }
    requires wide { HaveWidths widths.now (rows_of_all inputs.now) }
{
    let order = Order {
        keys: Seq::new(alloc),
        limit,
    };
    let given = given_in(alloc, query, &order, widths, inputs);
    drop(order);
    given
}

/// The same in an order.
fn given_in(
    alloc: Global,
    query: &Query,
    order: &Order,
    widths: &[usize],
    inputs: &[Stored<'_>],
) -> Result<Given, Fail>
    requires always { IsOpenTo query.now }
    requires count { length widths.now ≡ length query.now.joins + 1 }
    requires wide { HaveWidths widths.now (rows_of_all inputs.now) }
{
    let planned = plan(alloc, query, order, widths)?;
    let mut room = RowList::listed(Vec::new(alloc));
    let mut exec = Exec::open(&planned, inputs, &mut room);
    Ok(five_steps(alloc, &mut exec)?)
}

/// What the next five steps give.
fn five_steps<'p>(alloc: Global, exec: &mut Exec<'p, '_, '_>) -> Result<Given, AllocError> {
    let mut batch = Batch {
        columns: Vec::new(alloc),
        selection: Selection::new(),
    };
    let mut steps = Vec::new(alloc);
    let mut numbers = Vec::new(alloc);
    for _ in 0..5 {
        let step = next_step(alloc, exec, &mut batch);
        steps.push(step)?;
        if let Step::Rows(len) = step {
            add_numbers(&batch, len, &mut numbers)?;
        }
    }
    Ok(Given { steps, numbers })
}

/// What the next step does.
fn next_step<'p>(alloc: Global, exec: &mut Exec<'p, '_, '_>, batch: &mut Batch<'p>) -> Step {
    match exec.next(alloc, batch) {
        Ok(true) => Step::Rows(batch.selection.len()),
        Ok(false) => Step::End,
        Err(fault) => Step::Fault(fault),
    }
}

/// Adds the numbers of so many rows, row by row.
fn add_numbers(batch: &Batch<'_>, len: usize, numbers: &mut Vec<i128>) -> Result<(), AllocError> {
    for place in 0..len {
        for column in &batch.columns {
            numbers.push(number_at(column, place))?;
        }
    }
    Ok(())
}

/// The number at a place, and -1 where there is none.
fn number_at(column: &Vector<'_>, place: usize) -> i128 {
    match column.lend(place) {
        Lent::Number(number) => number,
        _ => -1,
    }
}
