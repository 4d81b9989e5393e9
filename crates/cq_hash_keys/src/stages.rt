//! Stages one behind the other, for all columns of keys but the first.
ghost use Rattle.std.specs.List.{AllByRecursion};
ghost use Rattle.std.specs.Prelude.{IfOk, OnErr, OnOk, length, ◌<◌, ◌≡◌, ◌≤◌};
ghost use Rattle.cq_values.specs.Lent.{owned};
ghost use Rattle.cq_values.specs.Value.{column as column_at};
ghost use Rattle.cq_hash_keys.specs.Keys.{HasLength, key_at, values_of};
ghost use Rattle.cq_hash_keys.specs.Stages.{AreStages, FindsOnIn, GoesOnIn, IsFresh, Readies, StaysStages, longest, singles};

use crate::stage::Stage;
use cq_hash_keys_values::Values;
use cq_values::Lent;
use cq_vectors::Vector;
use std::alloc::{AllocError, Global};
use std::mem::swap;

/// So many stages with nothing in them.
fn new_stages(alloc: Global, count: usize) -> Result<Vec<Stage>, AllocError>
    ensures count { IfOk result (λ stages. length stages.items ≡ count) }
    ensures fresh { IfOk result (λ stages. AllByRecursion IsFresh stages.items) }
{
    let mut stages = Vec::new(alloc);
    while stages.len() < count {
        stages.push(Stage::new(alloc)?)?;
    }
    Ok(stages)
}

/// Sees that there are so many stages: those that there are, or else new ones.
pub(crate) fn make_ready(
    alloc: Global,
    stages: &mut Vec<Stage>,
    count: usize,
) -> Result<(), AllocError>
    ensures ok { OnOk result (Readies count stages.old.items stages.new.items) }
    ensures err { OnErr result (stages.new.items ≡ stages.old.items) }
{
    if stages.len() == count {
        return Ok(());
    }
    *stages = new_stages(alloc, count)?;
    Ok(())
}

/// Takes in further columns of keys, which have these numbers and are so many without them. Tells the numbers with them.
pub(crate) fn go_on(
    alloc: Global,
    stages: &mut [Stage],
    columns: &[&Vector<'_>],
    count: usize,
    firsts: &mut Vec<usize>,
    seconds: &mut Vec<usize>,
    numbers: &mut Vec<usize>,
) -> Result<(), AllocError>
    requires columns { length columns.now ≡ length stages.old }
    requires long { AllByRecursion (HasLength (length numbers.old.items)) (values_of columns.now) }
    ensures ok { OnOk result (GoesOnIn stages.old columns.now numbers.old stages.new numbers.new) }
    ensures stays { StaysStages stages.old numbers.old.items stages.new }
    ensures count { length stages.new ≡ length stages.old }
{
    match stages.split_first_mut() {
        None => Ok(()),
        Some((stage, rest)) => match columns.split_first() {
            None => unreachable!(),
            Some((column, others)) => {
                swap(numbers, firsts);
                stage.add(alloc, column, count, firsts.as_slice(), seconds, numbers)?;
                let count = stage.pairs.len();
                go_on(alloc, rest, others, count, firsts, seconds, numbers)
            }
        },
    }
}

/// The numbers of keys with further columns, None where one was never met.
pub(crate) fn find_on(
    stages: &[Stage],
    columns: &[&Vector<'_>],
    firsts: &mut Vec<Option<usize>>,
    seconds: &mut Vec<Option<usize>>,
    numbers: &mut Vec<Option<usize>>,
) -> Result<(), AllocError>
    requires columns { length columns.now ≡ length stages.now }
    requires long { AllByRecursion (HasLength (length numbers.old.items)) (values_of columns.now) }
    ensures { OnOk result (FindsOnIn stages.now columns.now numbers.old numbers.new) }
{
    match stages.split_first() {
        None => Ok(()),
        Some((stage, rest)) => match columns.split_first() {
            None => unreachable!(),
            Some((column, others)) => {
                swap(numbers, firsts);
                stage.find(column, firsts.as_slice(), seconds, numbers)?;
                find_on(rest, others, firsts, seconds, numbers)
            }
        },
    }
}

/// The value of a column of the key of a number.
pub(crate) fn lend_value<'t>(
    first: &'t Values,
    stages: &'t [Stage],
    key: usize,
    column: usize,
) -> Lent<'t>
    requires stages { AreStages (singles first.now) stages.now }
    requires key { key < length (longest (singles first.now) stages.now) }
    requires column { column ≤ length stages.now }
    ensures { owned result ≡ column_at (key_at (longest (singles first.now) stages.now) key) column }
{
    match stages.split_last() {
        None => first.lend(key),
        Some((stage, before)) => {
            let (number, value) = stage.pairs.pair(key);
            if column <= before.len() {
                lend_value(first, before, number, column)
            } else {
                stage.values.lend(value)
            }
        }
    }
}
