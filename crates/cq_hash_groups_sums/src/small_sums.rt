//! Sums of groups in 64 bits.
//!
//! `put` puts values in up to the first whose sum 64 bits do not hold, and tells its place: from there on the sums have to
//! be wide. It costs one read and one write of 16 bytes for a value, and takes no memory.
ghost use Rattle.std.specs.Prelude.{◌++◌, replicate, ℕ, ◌+◌, ◌+ℤ◌, ◌^◌, ◌≡◌, ◌≤◌, IfSome, nat_abs, OnErr, OnOk, [], length, map, slice_index_or};
ghost use Rattle.cq_values.specs.Lent.{owned};
ghost use Rattle.cq_values.specs.declared.value.Value.TheVariants.{Number};
ghost use Rattle.cq_model.specs.Group.{InRange};
ghost use Rattle.cq_vectors_stored.specs.Columns.{number_unless};
ghost use Rattle.cq_vectors_stored.specs.LentColumns.{FitAbove};
ghost use Rattle.cq_vectors_stored.specs.Offsets.{offsets_in};
ghost use Rattle.cq_hash_groups_sums.specs.NumberColumns.{all_above};
ghost use Rattle.cq_hash_groups_sums.specs.Puts.{AreNumbers, AreSumsWithin, IsSumWithin, PutFrom, PutNumbers, PutsAbove, grown, most_before, no_sum, put_sum, shown_sum, summed};

use crate::at_hand::{one_group, put_at_hand};
use crate::number_columns::{AboveBy, NumberColumn, Plain};
use cq_values::Lent;
use cq_vectors::{Form, Vector};
use cq_vectors_masks::Plane;
use cq_vectors_stored::Offsets;
use std::alloc::{AllocError, Global};
use std::marker::Model;

/// The total of values, and how many they are, side by side.
#[derive(Drop)]
pub struct SmallSum {
    pub(crate) count: u64,
    pub(crate) total: i64,
}

impl Model for SmallSum {
    ghost use Rattle.cq_hash_groups_sums.specs.declared.wide_sums.Sum.{Sum};
    ghost use Rattle.cq_hash_groups_sums.specs.Puts.{summed};

    ghost Value = { Sum };

    ghost view = { λ s. summed s.count s.total };
}

impl SmallSum {
    /// With a number more, where 64 bits hold the total.
    pub(crate) fn with_number(&self, n: i64) -> Option<SmallSum>
        requires { IsSumWithin (most_before 1) self.now }
        ensures sum { IfSome result (λ sum. sum ≡ put_sum self.now (Number n)) }
        ensures within { IfSome result (λ sum. (m : ℕ) → IsSumWithin m self.now → IsSumWithin (m + 1) sum) }
    {
        match self.total.checked_add(n) {
            Some(total) => Some(SmallSum {
                count: self.count + 1,
                total,
            }),
            None => None,
        }
    }

    /// With a number more, where 64 bits hold the total. What stands under a NULL adds nothing.
    pub(crate) fn with_number_unless(&self, n: i64, is_null: bool) -> Option<SmallSum>
        requires { IsSumWithin (most_before 1) self.now }
        ensures sum { IfSome result (λ sum. sum ≡ put_sum self.now (number_unless n is_null)) }
        ensures within { IfSome result (λ sum. (m : ℕ) → IsSumWithin m self.now → IsSumWithin (m + 1) sum) }
    {
        if is_null {
            Some(self.again())
        } else {
            self.with_number(n)
        }
    }

    /// With so many values more, where 64 bits hold the total together with theirs.
    pub(crate) fn with_total(&self, many: usize, total: i64) -> Option<SmallSum>
        requires { IsSumWithin (most_before many) self.now }
        ensures sum { IfSome result (λ sum. sum ≡ summed (self.now.count + many) (self.now.total +ℤ total)) }
        ensures small { IfSome result (λ sum. nat_abs sum.total ≤ 2 ^ 63) }
    {
        match self.total.checked_add(total) {
            Some(total) => Some(SmallSum {
                count: self.count + many as u64,
                total,
            }),
            None => None,
        }
    }

    /// The same sum.
    pub(crate) fn again(&self) -> SmallSum
        ensures { result ≡ self.now }
    {
        SmallSum {
            count: self.count,
            total: self.total,
        }
    }

    /// With a value more, where 64 bits hold the total. NULL adds nothing.
    fn with_value(&self, value: &Lent<'_>) -> Option<SmallSum>
        requires { IsSumWithin (most_before 1) self.now }
        ensures sum { IfSome result (λ sum. sum ≡ put_sum self.now (owned value.now)) }
        ensures within { IfSome result (λ sum. (m : ℕ) → IsSumWithin m self.now → IsSumWithin (m + 1) sum) }
    {
        match value {
            Lent::Null => Some(self.again()),
            Lent::Number(n) => self.with_number(i64::try_from(*n).ok()?),
            _ => Some(SmallSum {
                count: self.count + 1,
                total: self.total,
            }),
        }
    }

    /// The total, which is NULL of no values.
    fn lend(&self) -> Lent<'_>
        ensures value { owned result ≡ shown_sum self.now }
        ensures range { InRange self.now.total }
    {
        let (count, total) = (self.count, self.total);
        if count == 0 {
            Lent::Null
        } else {
            Lent::Number(i128::from(total))
        }
    }
}

/// The sum of each group, by its number, where 64 bits hold each.
#[derive(Drop)]
pub struct SmallSums {
    sums: Vec<SmallSum>,
}

impl Model for SmallSums {
    ghost use Rattle.std.specs.Prelude.{List};
    ghost use Rattle.cq_hash_groups_sums.specs.declared.wide_sums.Sum.{Sum};

    ghost Value = { List Sum };

    ghost view = { λ s. s.sums.items };
}

impl SmallSums {
    /// No groups. Takes no memory.
    pub(crate) fn new(alloc: Global) -> SmallSums
        ensures { result ≡ [] }
    {
        SmallSums {
            sums: Vec::new(alloc),
        }
    }

    /// Makes so many groups of them, where a new one has no values.
    pub(crate) fn grow(&mut self, groups: usize) -> Result<(), AllocError>
        ensures ok { OnOk result (self.new ≡ grown no_sum groups self.old) }
        ensures err { OnErr result (self.new ≡ self.old) }
    {
        let missing = groups.saturating_sub(self.sums.len());
        push_empty(&mut self.sums, missing)
    }

    /// Puts the values into the groups of their numbers, up to the first that finds no room in 64 bits. Tells its place, or
    /// how many values there are.
    pub(crate) fn put(&mut self, numbers: &[usize], values: &Vector<'_>) -> usize
        requires there { AreNumbers (length self.old) numbers.now }
        requires same { length numbers.now ≡ length values.now }
        requires room { AreSumsWithin (most_before (length numbers.now)) self.old }
        ensures few { result ≤ length numbers.now }
        ensures put { PutFrom 0 result numbers.now values.now self.old self.new }
    {
        put_values(&mut self.sums, numbers, values)
    }

    /// The sums as they stand.
    pub(crate) fn as_slice(&self) -> &[SmallSum]
        ensures { result.now ≡ self.now }
    {
        self.sums.as_slice()
    }

    /// How many values a group has.
    pub(crate) fn count(&self, group: usize) -> u64
        ensures { result ≡ (slice_index_or self.now group no_sum).count }
    {
        match self.sums.get(group) {
            Some(sum) => sum.count,
            None => 0,
        }
    }

    /// The total of a group, which is NULL of no values.
    pub(crate) fn lend(&self, group: usize) -> Lent<'_>
        ensures value { owned result ≡ shown_sum (slice_index_or self.now group no_sum) }
        ensures range { InRange (slice_index_or self.now group no_sum).total }
    {
        match self.sums.get(group) {
            Some(sum) => sum.lend(),
            None => Lent::Null,
        }
    }
}

fn put_values(sums: &mut [SmallSum], numbers: &[usize], values: &Vector<'_>) -> usize
    requires there { AreNumbers (length sums.old) numbers.now }
    requires same { length numbers.now ≡ length values.now }
    requires room { AreSumsWithin (most_before (length numbers.now)) sums.old }
    ensures few { result ≤ length numbers.now }
    ensures put { PutFrom 0 result numbers.now values.now sums.old sums.new }
{
    if let Form::Narrow(column) = values.form() {
        let (base, offsets) = column.parts();
        return put_above(sums, numbers, base, &offsets, column.nulls());
    }
    match values.numbers() {
        Some(column) => put_column(
            sums,
            numbers,
            &Plain {
                values: column.values(),
            },
            column.nulls(),
        ),
        None => put_each(numbers, values, sums),
    }
}

/// Puts in the numbers at the offsets above the base, at the places that are not NULL, by a loop for their width.
fn put_above(
    sums: &mut [SmallSum],
    numbers: &[usize],
    base: i64,
    offsets: &Offsets<'_>,
    nulls: &Plane,
) -> usize
    requires fit { FitAbove base (offsets_in offsets.now) }
    requires there { AreNumbers (length sums.old) numbers.now }
    requires same { length numbers.now ≡ length (offsets_in offsets.now) }
    requires flags { length nulls.now ≡ length (offsets_in offsets.now) }
    requires room { AreSumsWithin (most_before (length numbers.now)) sums.old }
    ensures few { result ≤ length numbers.now }
    ensures put { PutsAbove result numbers.now base (offsets_in offsets.now) nulls.now sums.old sums.new }
{
    match offsets {
        Offsets::One(offsets) => {
            let offsets = *offsets;
            put_column(sums, numbers, &AboveBy { base, offsets }, nulls)
        }
        Offsets::Two(offsets) => {
            let offsets = *offsets;
            put_column(sums, numbers, &AboveBy { base, offsets }, nulls)
        }
        Offsets::Four(offsets) => {
            let offsets = *offsets;
            put_column(sums, numbers, &AboveBy { base, offsets }, nulls)
        }
    }
}

/// Puts in the numbers at the places that are not NULL.
fn put_column<C: NumberColumn>(
    sums: &mut [SmallSum],
    numbers: &[usize],
    column: &C,
    nulls: &Plane,
) -> usize
    requires there { AreNumbers (length sums.old) numbers.now }
    requires same { length numbers.now ≡ length (C.numbers column.now) }
    requires flags { length nulls.now ≡ length (C.numbers column.now) }
    requires room { AreSumsWithin (most_before (length numbers.now)) sums.old }
    ensures few { result ≤ length numbers.now }
    ensures put { PutNumbers 0 result numbers.now (C.numbers column.now) nulls.now sums.old sums.new }
{
    if let Some(group) = one_group(sums.len(), numbers) {
        return put_at_hand(sums, group, numbers, column, nulls);
    }
    if nulls.is_clear() {
        return put_numbers(sums, numbers, column);
    }
    for place in 0..nulls.len() {
        let group = numbers[place];
        let number = column.at(place);
        let Some(sum) = sums[group].with_number_unless(number, nulls.get(place)) else {
            return place;
        };
        sums[group] = sum;
    }
    nulls.len()
}

fn put_numbers<C: NumberColumn>(sums: &mut [SmallSum], numbers: &[usize], column: &C) -> usize
    requires there { AreNumbers (length sums.old) numbers.now }
    requires same { length numbers.now ≡ length (C.numbers column.now) }
    requires room { AreSumsWithin (most_before (length numbers.now)) sums.old }
    ensures few { result ≤ length numbers.now }
    ensures put { PutFrom 0 result numbers.now (map Number (C.numbers column.now)) sums.old sums.new }
{
    for place in 0..numbers.len() {
        let group = numbers[place];
        let Some(sum) = sums[group].with_number(column.at(place)) else {
            return place;
        };
        sums[group] = sum;
    }
    numbers.len()
}

fn put_each(numbers: &[usize], values: &Vector<'_>, sums: &mut [SmallSum]) -> usize
    requires there { AreNumbers (length sums.old) numbers.now }
    requires same { length numbers.now ≡ length values.now }
    requires room { AreSumsWithin (most_before (length numbers.now)) sums.old }
    ensures few { result ≤ length numbers.now }
    ensures put { PutFrom 0 result numbers.now values.now sums.old sums.new }
{
    for place in 0..numbers.len() {
        let group = numbers[place];
        let Some(sum) = sums[group].with_value(&values.lend(place)) else {
            return place;
        };
        sums[group] = sum;
    }
    numbers.len()
}

/// So many groups more, which have no values.
fn push_empty(sums: &mut Vec<SmallSum>, missing: usize) -> Result<(), AllocError>
    ensures ok { OnOk result (sums.new.items ≡ sums.old.items ++ replicate missing no_sum) }
    ensures err { OnErr result (sums.new.items ≡ sums.old.items) }
{
    sums.reserve(missing)?;
    for _ in 0..missing {
        sums.push_reserved(SmallSum { count: 0, total: 0 });
    }
    Ok(())
}
