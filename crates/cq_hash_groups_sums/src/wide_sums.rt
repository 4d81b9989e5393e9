//! Sums of groups that hold any total.
ghost use Rattle.std.specs.Prelude.{◌++◌, replicate, ℕ, ◌+◌, ◌^◌, ◌≡◌, ◌≤◌, IfErr, IfOk, OnErr, OnOk, length, slice_index_or};
ghost use Rattle.cq_values.specs.Lent.{owned};
ghost use Rattle.cq_model.specs.Group.{InRange};
ghost use Rattle.cq_hash_groups_sums.specs.Puts.{AreNumbers, AreSumsWithin, IsSumWithin, IsTotalFault, PutColumn, PutFrom, grown, no_sum, put_sum, shown_sum};

use crate::number_columns::{Above, NumberColumn, Plain, lent_unless};
use crate::small_sums::{SmallSum, SmallSums};
use cq_model::ShowFault;
use cq_values::{Lent, Total};
use cq_vectors::{Form, Vector};
use cq_vectors_masks::Plane;
use std::alloc::{AllocError, Global};
use std::marker::Model;

/// The exact total of values, and how many they are.
#[derive(Drop)]
pub struct Sum {
    pub(crate) count: u128,
    pub(crate) total: Total,
}

impl Sum {
    /// Of no values.
    fn new() -> Sum
        ensures { result ≡ no_sum }
    {
        Sum {
            count: 0,
            total: Total::new(),
        }
    }

    /// The same sum.
    fn of(small: &SmallSum) -> Sum
        ensures { result ≡ small.now }
    {
        let mut total = Total::new();
        total.add(i128::from(small.total));
        Sum {
            count: u128::from(small.count),
            total,
        }
    }

    /// Puts a value in. NULL adds nothing.
    fn put(&mut self, value: &Lent<'_>)
        requires { IsSumWithin (2 ^ 97) self.old }
        ensures sum { self.new ≡ put_sum self.old (owned value.now) }
        ensures within { (n : ℕ) → IsSumWithin n self.old → IsSumWithin (n + 1) self.new }
    {
        match value {
            Lent::Null => {}
            Lent::Number(n) => {
                self.count += 1;
                self.total.add(*n);
            }
            _ => self.count += 1,
        }
    }

    /// The total, which is NULL of no values.
    fn lend(&self) -> Result<Lent<'_>, ShowFault>
        ensures value { IfOk result (λ v. owned v ≡ shown_sum self.now) }
        ensures range { OnOk result (InRange self.now.total) }
        ensures fault { IfErr result (IsTotalFault self.now) }
    {
        let Some(total) = self.total.to_i128() else {
            return Err(ShowFault::SumOutOfRange);
        };
        if self.count == 0 {
            Ok(Lent::Null)
        } else {
            Ok(Lent::Number(total))
        }
    }
}

/// The sum of each group, by its number.
#[derive(Drop)]
pub struct WideSums {
    sums: Vec<Sum>,
}

impl Model for WideSums {
    ghost use Rattle.std.specs.Prelude.{List};
    ghost use Rattle.cq_hash_groups_sums.specs.declared.wide_sums.Sum.{Sum};

    ghost Value = { List Sum };

    ghost view = { λ s. s.sums.items };
}

impl WideSums {
    /// The same sums.
    pub(crate) fn of(alloc: Global, small: &SmallSums) -> Result<WideSums, AllocError>
        ensures { IfOk result (λ wide. wide ≡ small.now) }
    {
        let sums = wide_sums(alloc, small.as_slice())?;
        Ok(WideSums { sums })
    }

    /// Makes so many groups of them, where a new one has no values.
    pub(crate) fn grow(&mut self, groups: usize) -> Result<(), AllocError>
        ensures ok { OnOk result (self.new ≡ grown no_sum groups self.old) }
        ensures err { OnErr result (self.new ≡ self.old) }
    {
        let missing = groups.saturating_sub(self.sums.len());
        push_empty(&mut self.sums, missing)
    }

    /// Puts the values from a place on into the groups of their numbers.
    pub(crate) fn put(&mut self, start: usize, numbers: &[usize], values: &Vector<'_>)
        requires start { start ≤ length numbers.now }
        requires there { AreNumbers (length self.old) numbers.now }
        requires same { length numbers.now ≡ length values.now }
        requires room { AreSumsWithin (2 ^ 96) self.old }
        ensures { PutFrom start (length numbers.now) numbers.now values.now self.old self.new }
    {
        put_values(&mut self.sums, start, numbers, values);
    }

    /// How many values a group has.
    pub(crate) fn count(&self, group: usize) -> u128
        ensures { result ≡ (slice_index_or self.now group no_sum).count }
    {
        match self.sums.get(group) {
            Some(sum) => sum.count,
            None => 0,
        }
    }

    /// The total of a group, which is NULL of no values.
    pub(crate) fn lend(&self, group: usize) -> Result<Lent<'_>, ShowFault>
        ensures value { IfOk result (λ v. owned v ≡ shown_sum (slice_index_or self.now group no_sum)) }
        ensures range { OnOk result (InRange (slice_index_or self.now group no_sum).total) }
        ensures fault { IfErr result (IsTotalFault (slice_index_or self.now group no_sum)) }
    {
        match self.sums.get(group) {
            Some(sum) => sum.lend(),
            None => Ok(Lent::Null),
        }
    }
}

fn wide_sums(alloc: Global, small: &[SmallSum]) -> Result<Vec<Sum>, AllocError>
    ensures { IfOk result (λ sums. sums.items ≡ small.now) }
{
    let mut sums = Vec::new(alloc);
    sums.reserve(small.len())?;
    for sum in small {
        sums.push_reserved(Sum::of(sum));
    }
    Ok(sums)
}

fn put_values(sums: &mut [Sum], start: usize, numbers: &[usize], values: &Vector<'_>)
    requires start { start ≤ length numbers.now }
    requires there { AreNumbers (length sums.old) numbers.now }
    requires same { length numbers.now ≡ length values.now }
    requires room { AreSumsWithin (2 ^ 96) sums.old }
    ensures { PutFrom start (length numbers.now) numbers.now values.now sums.old sums.new }
{
    if let Form::Narrow(column) = values.form() {
        let (base, offsets) = column.parts();
        put_column(
            sums,
            start,
            numbers,
            &Above { base, offsets },
            column.nulls(),
        );
        return;
    }
    match values.numbers() {
        Some(column) => put_column(
            sums,
            start,
            numbers,
            &Plain {
                values: column.values(),
            },
            column.nulls(),
        ),
        None => put_each(start, numbers, values, sums),
    }
}

fn put_column<C: NumberColumn>(
    sums: &mut [Sum],
    start: usize,
    numbers: &[usize],
    column: &C,
    nulls: &Plane,
)
    requires start { start ≤ length numbers.now }
    requires there { AreNumbers (length sums.old) numbers.now }
    requires same { length numbers.now ≡ length (C.numbers column.now) }
    requires flags { length nulls.now ≡ length (C.numbers column.now) }
    requires room { AreSumsWithin (2 ^ 96) sums.old }
    ensures { PutColumn start numbers.now (C.numbers column.now) nulls.now sums.old sums.new }
{
    for place in start..nulls.len() {
        let number = column.at(place);
        sums[numbers[place]].put(&lent_unless(number, nulls.get(place)));
    }
}

fn put_each(start: usize, numbers: &[usize], values: &Vector<'_>, sums: &mut [Sum])
    requires start { start ≤ length numbers.now }
    requires there { AreNumbers (length sums.old) numbers.now }
    requires same { length numbers.now ≡ length values.now }
    requires room { AreSumsWithin (2 ^ 96) sums.old }
    ensures { PutFrom start (length numbers.now) numbers.now values.now sums.old sums.new }
{
    for place in start..numbers.len() {
        sums[numbers[place]].put(&values.lend(place));
    }
}

/// So many groups more, which have no values.
fn push_empty(sums: &mut Vec<Sum>, missing: usize) -> Result<(), AllocError>
    ensures ok { OnOk result (sums.new.items ≡ sums.old.items ++ replicate missing no_sum) }
    ensures err { OnErr result (sums.new.items ≡ sums.old.items) }
{
    sums.reserve(missing)?;
    for _ in 0..missing {
        sums.push_reserved(Sum::new());
    }
    Ok(())
}
