//! Extremes of groups.
ghost use Rattle.std.specs.Prelude.{◌++◌, replicate, ◌≡◌, IfOk, OnErr, OnOk, [], length, slice_index_or};
ghost use Rattle.cq_values.specs.Lent.{owned};
ghost use Rattle.cq_values.specs.Order.{value_cmp};
ghost use Rattle.cq_values.specs.declared.value.Value.{Value as Datum};
ghost use Rattle.cq_values.specs.declared.value.Value.TheVariants.{Null, Number};
ghost use Rattle.cq_vectors_stored.specs.Columns.{number_unless};
ghost use Rattle.cq_hash_groups_sums.specs.Puts.{AreNumbers, grown};
ghost use Rattle.cq_hash_groups_slots.specs.Puts.{IsSecondBetter, IsTaken, PutsBests, PutsNumbers, put_best};

use cq_hash_groups_sums::{Above, NumberColumn, Plain};
use cq_values::{Lent, Value, cmp_lent};
use cq_vectors::{Form, Vector};
use cq_vectors_masks::Plane;
use std::alloc::{AllocError, Global};
use std::cmp::Ordering;
use std::marker::Model;

/// Which value of a group is kept.
#[derive(Clone, Copy, PartialEq, Eq, Debug)]
pub enum Extreme {
    Least,
    Greatest,
}

/// The least or the greatest value of each group, by its number; NULL of none.
#[derive(Drop)]
pub struct Bests {
    values: Vec<Value>,
}

impl Model for Bests {
    ghost use Rattle.std.specs.Prelude.{List};
    ghost use Rattle.cq_values.specs.declared.value.Value.{Value as Datum};

    ghost Value = { List Datum };

    ghost view = { λ b. b.values.items };
}

impl Bests {
    /// No groups. Takes no memory.
    pub(crate) fn new(alloc: Global) -> Bests
        ensures { result ≡ [] }
    {
        Bests {
            values: Vec::new(alloc),
        }
    }

    /// Makes so many groups of them, where a new one has no values.
    pub(crate) fn grow(&mut self, groups: usize) -> Result<(), AllocError>
        ensures ok { OnOk result (self.new ≡ grown Null groups self.old) }
        ensures err { OnErr result (self.new ≡ self.old) }
    {
        let missing = groups.saturating_sub(self.values.len());
        push_nulls(&mut self.values, missing)
    }

    /// Puts the values into the groups of their numbers. Those that are best so far are copied.
    pub(crate) fn put(
        &mut self,
        alloc: Global,
        which: Extreme,
        numbers: &[usize],
        values: &Vector<'_>,
    ) -> Result<(), AllocError>
        requires there { AreNumbers (length self.old) numbers.now }
        requires same { length numbers.now ≡ length values.now }
        ensures { OnOk result (PutsBests which numbers.now values.now self.old self.new) }
    {
        put_bests(alloc, which, numbers, &mut self.values, values)
    }

    /// The best value of a group, where it stands.
    pub(crate) fn lend(&self, group: usize) -> Lent<'_>
        ensures { owned result ≡ slice_index_or self.now group Null }
    {
        match self.values.get(group) {
            Some(value) => value.lend(),
            None => Lent::Null,
        }
    }
}

fn put_bests(
    alloc: Global,
    which: Extreme,
    numbers: &[usize],
    bests: &mut [Value],
    values: &Vector<'_>,
) -> Result<(), AllocError>
    requires there { AreNumbers (length bests.old) numbers.now }
    requires same { length numbers.now ≡ length values.now }
    ensures { OnOk result (PutsBests which numbers.now values.now bests.old bests.new) }
{
    if let Form::Narrow(column) = values.form() {
        let (base, offsets) = column.parts();
        put_numbers(
            which,
            bests,
            numbers,
            &Above { base, offsets },
            column.nulls(),
        );
        return Ok(());
    }
    match values.numbers() {
        Some(column) => {
            let values = column.values();
            put_numbers(which, bests, numbers, &Plain { values }, column.nulls());
            Ok(())
        }
        None => put_each(alloc, which, numbers, values, bests),
    }
}

/// Takes no memory.
fn put_numbers<C: NumberColumn>(
    which: Extreme,
    bests: &mut [Value],
    numbers: &[usize],
    column: &C,
    nulls: &Plane,
)
    requires there { AreNumbers (length bests.old) numbers.now }
    requires same { length numbers.now ≡ length (C.numbers column.now) }
    requires flags { length nulls.now ≡ length (C.numbers column.now) }
    ensures { PutsNumbers which numbers.now (C.numbers column.now) nulls.now bests.old bests.new }
{
    for place in 0..nulls.len() {
        let number = column.at(place);
        put_number(which, &mut bests[numbers[place]], number, nulls.get(place));
    }
}

/// Takes the number where it is better, unless it stands under a NULL.
fn put_number(which: Extreme, best: &mut Value, number: i64, is_null: bool)
    ensures { best.new ≡ put_best which best.old (number_unless number is_null) }
{
    let n = i128::from(number);
    if !is_null && is_better_number(which, best, n) {
        *best = Value::Number(n);
    }
}

/// Whether the number stands in the place of what is best so far.
fn is_better_number(which: Extreme, best: &Value, n: i128) -> bool
    ensures { IsTaken which best.now (Number n) result }
{
    match best {
        Value::Null => true,
        Value::Number(so_far) => is_passed(which, so_far.cmp(&n)),
        _ => comes_first(which, &best.lend(), &Lent::Number(n)),
    }
}

fn put_each(
    alloc: Global,
    which: Extreme,
    numbers: &[usize],
    values: &Vector<'_>,
    bests: &mut [Value],
) -> Result<(), AllocError>
    requires there { AreNumbers (length bests.old) numbers.now }
    requires same { length numbers.now ≡ length values.now }
    ensures { OnOk result (PutsBests which numbers.now values.now bests.old bests.new) }
{
    for place in 0..numbers.len() {
        put_best(
            alloc,
            which,
            &mut bests[numbers[place]],
            &values.lend(place),
        )?;
    }
    Ok(())
}

/// Takes the value where it is better.
fn put_best(
    alloc: Global,
    which: Extreme,
    best: &mut Value,
    value: &Lent<'_>,
) -> Result<(), AllocError>
    ensures { OnOk result (best.new ≡ put_best which best.old (owned value.now)) }
{
    if is_better(which, best, value) {
        *best = value.to_value(alloc)?;
    }
    Ok(())
}

/// Whether the value stands in the place of what is best so far.
fn is_better(which: Extreme, best: &Value, value: &Lent<'_>) -> bool
    ensures { IsTaken which best.now (owned value.now) result }
{
    match (best, value) {
        (_, Lent::Null) => false,
        (Value::Null, _) => true,
        _ => comes_first(which, &best.lend(), value),
    }
}

fn comes_first(which: Extreme, a: &Lent<'_>, b: &Lent<'_>) -> bool
    ensures { IsSecondBetter which (owned a.now) (owned b.now) result }
{
    is_passed(which, cmp_lent(a, b))
}

/// Whether the second of two values is better, by their order.
fn is_passed(which: Extreme, order: Ordering) -> bool
    ensures { (v w : Datum) → order ≡ value_cmp v w → IsSecondBetter which v w result }
{
    match which {
        Extreme::Least => order.is_gt(),
        Extreme::Greatest => order.is_lt(),
    }
}

/// So many groups more, which have no values.
fn push_nulls(values: &mut Vec<Value>, missing: usize) -> Result<(), AllocError>
    ensures ok { OnOk result (values.new.items ≡ values.old.items ++ replicate missing Null) }
    ensures err { OnErr result (values.new.items ≡ values.old.items) }
{
    values.reserve(missing)?;
    for _ in 0..missing {
        values.push_reserved(Value::Null);
    }
    Ok(())
}
