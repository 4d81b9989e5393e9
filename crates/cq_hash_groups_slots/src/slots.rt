//! What is kept of groups for one aggregate.
ghost use Rattle.std.specs.Prelude.{[], ◌+◌, ◌-◌, ◌^◌, ◌≡◌, IfErr, IfOk, OnOk, length, pos, slice_index_or, ℕ};
ghost use Rattle.cq_values.specs.Lent.{owned};
ghost use Rattle.cq_values.specs.declared.value.Value.TheVariants.{Number};
ghost use Rattle.cq_model.specs.declared.fault.ShowFault.TheVariants.{SumOutOfRange};
ghost use Rattle.cq_hash_groups_sums.specs.Puts.{AreNumbers, AreSumsWithin, most_before};
ghost use Rattle.cq_hash_groups_slots.specs.Slots.{AreWithin, CanShow, beside, empty_slots, groups_in, grown_slots, put_nulls, put_slots, rows_counted, shown_at};

use crate::bests::{Bests, Extreme};
use crate::counts::Counts;
use cq_hash_groups_distinct::ValueSets;
use cq_hash_groups_sums::Sums;
use cq_model::{Aggregate, ShowFault};
use cq_values::Lent;
use cq_vectors::Vector;
use std::alloc::{AllocError, Global};

/// What is kept of each group for one aggregate, by the group's number.
#[derive(Drop)]
pub enum Slots {
    Counts(Counts),
    Sums(Sums),
    Bests(Extreme, Bests),
    Sets(ValueSets),
}

impl Slots {
    /// No groups. Takes no memory.
    pub fn new(alloc: Global, aggregate: &Aggregate) -> Slots
        ensures { result ≡ empty_slots aggregate.now }
    {
        match aggregate {
            Aggregate::CountAll | Aggregate::Count(_) => Slots::Counts(Counts::new(alloc)),
            Aggregate::CountDistinct(_) => Slots::Sets(ValueSets::new(alloc)),
            Aggregate::Sum(_) => Slots::Sums(Sums::new(alloc)),
            Aggregate::Min(_) => Slots::Bests(Extreme::Least, Bests::new(alloc)),
            Aggregate::Max(_) => Slots::Bests(Extreme::Greatest, Bests::new(alloc)),
        }
    }

    /// Makes so many groups of them, where a new one has no values.
    pub fn grow(&mut self, groups: usize) -> Result<(), AllocError>
        ensures ok { OnOk result (self.new ≡ grown_slots groups self.old) }
        ensures within { (n : ℕ) → AreWithin n self.old → AreWithin n self.new }
    {
        match self {
            Slots::Counts(counts) => counts.grow(groups),
            Slots::Sums(sums) => sums.grow(groups),
            Slots::Bests(_, bests) => bests.grow(groups),
            Slots::Sets(sets) => sets.grow(groups),
        }
    }

    /// Puts the values into the groups of their numbers.
    pub fn put(
        &mut self,
        alloc: Global,
        numbers: &[usize],
        values: &Vector<'_>,
    ) -> Result<(), AllocError>
        requires there { AreNumbers (groups_in self.old) numbers.now }
        requires same { length numbers.now ≡ length values.now }
        requires room { AreWithin (most_before (length numbers.now)) self.old }
        ensures ok { OnOk result (self.new ≡ put_slots numbers.now values.now self.old) }
        ensures within { (n : ℕ) → AreWithin n self.old → AreWithin (n + length numbers.now) self.new }
    {
        match self {
            Slots::Counts(counts) => {
                counts.put(numbers, values);
                Ok(())
            }
            Slots::Sums(sums) => sums.put(alloc, numbers, values),
            Slots::Bests(which, bests) => bests.put(alloc, *which, numbers, values),
            Slots::Sets(sets) => sets.put(alloc, numbers, values),
        }
    }

    /// Counts the NULLs in the groups of their numbers, where counts are kept.
    pub fn put_nulls(&mut self, numbers: &[usize], values: &Vector<'_>)
        requires there { AreNumbers (groups_in self.old) numbers.now }
        requires same { length numbers.now ≡ length values.now }
        requires room { AreWithin (most_before (length numbers.now)) self.old }
        ensures nulls { self.new ≡ put_nulls numbers.now values.now self.old }
        ensures within { (n : ℕ) → AreWithin n self.old → AreWithin (n + length numbers.now) self.new }
    {
        match self {
            Slots::Counts(counts) => counts.put_nulls(numbers, values),
            _ => {}
        }
    }

    /// What a group shows of counts that are kept beside others, where it stands.
    pub fn lend_beside(&self, others: &Slots, group: usize) -> Result<Lent<'_>, ShowFault>
        requires { AreWithin (2 ^ 64 - 1) others.now }
        ensures value { IfOk result (λ v. owned v ≡ shown_at group (beside others.now self.now)) }
        ensures range { OnOk result (CanShow group (beside others.now self.now)) }
        ensures fault { IfErr result (λ e. e ≡ SumOutOfRange → CanShow group (beside others.now self.now) → ⊥) }
    {
        match (others, self) {
            (Slots::Sums(sums), Slots::Counts(nulls)) => Ok(rows_of(sums, nulls, group)),
            _ => self.lend(group),
        }
    }

    /// What a group shows, where it stands.
    pub fn lend(&self, group: usize) -> Result<Lent<'_>, ShowFault>
        ensures value { IfOk result (λ v. owned v ≡ shown_at group self.now) }
        ensures range { OnOk result (CanShow group self.now) }
        ensures fault { IfErr result (λ e. e ≡ SumOutOfRange → CanShow group self.now → ⊥) }
    {
        match self {
            Slots::Counts(counts) => Ok(counts.lend(group)),
            Slots::Sums(sums) => sums.lend(group),
            Slots::Bests(_, bests) => Ok(bests.lend(group)),
            Slots::Sets(sets) => Ok(size_of(sets, group)),
        }
    }
}

/// How many rows a group has: its values and its NULLs.
fn rows_of<'s>(sums: &Sums, nulls: &Counts, group: usize) -> Lent<'s>
    requires { AreSumsWithin (2 ^ 64 - 1) sums.now }
    ensures { owned result ≡ Number (pos (slice_index_or (rows_counted sums.now nulls.now) group 0)) }
{
    Lent::Number(i128::from(sums.count(group)) + i128::from(nulls.count(group)))
}

/// How many different values a group has.
fn size_of<'s>(sets: &ValueSets, group: usize) -> Lent<'s>
    ensures { owned result ≡ Number (pos (length (slice_index_or sets.now group []))) }
{
    Lent::Number(i128::from(sets.count(group)))
}
