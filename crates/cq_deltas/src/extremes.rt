//! Values with their counts, in order: what MIN, MAX and COUNT(DISTINCT ..) need of a group's rows.
//!
//! [`Extremes::ready`] makes room for a value, [`Extremes::put`] counts it, and [`Extremes::settle`] lets it go where it
//! is counted no longer. These cost the logarithm of how many values there are, and so do [`Extremes::least`] and
//! [`Extremes::greatest`], but for values that wait with count zero. How many different values there are is at hand.
ghost use Rattle.std.specs.Option.{option_copied};
ghost use Rattle.std.specs.Prelude.{nat_abs, pos, int_lt, if◌then◌else◌, ◌+◌, ◌<◌, ◌≡◌, ◌↔◌, ◌^◌, IsTrue, OnOk, [], length};
ghost use Rattle.cq_model_bags.specs.Bag.{weight_of};
ghost use Rattle.cq_model.specs.Group.{distinct_values, higher, lower};
ghost use Rattle.cq_deltas.specs.Extremes.{HasRoom, IsAdded, IsExtreme, IsGone, KeepsOtherRoom, KeepsRoom, alone};

use cq_values::Value;
use std::alloc::{AllocError, Global};
use std::collections::BTreeMap;
use std::marker::Model;

/// Values with signed counts, in order. NULLs are counted apart, since they are no extremes.
#[derive(Debug, Drop)]
pub(crate) struct Extremes {
    counts: BTreeMap<Value, i128>,
    nulls: i128,
    /// How many of the values have a count above zero.
    different: usize,
}

impl Model for Extremes {
    ghost use Rattle.cq_deltas.specs.Extremes.{Held, IsCounted, held_of};

    ghost Value = { Held };

    ghost view = { λ e. held_of e.counts.entries e.nulls };

    ghost invariant = { λ e. IsCounted e.counts.entries e.different };
}

impl Extremes {
    pub(crate) fn new(alloc: Global) -> Extremes
        ensures { result.values ≡ [] }
    {
        Extremes {
            counts: BTreeMap::new(alloc),
            nulls: 0,
            different: 0,
        }
    }

    /// MIN of the values, and none where there is no value but NULL.
    pub(crate) fn least(&self) -> Option<&Value>
        ensures { IsExtreme lower self.now.values (option_copied result) }
    {
        let (value, _) = self.counts.iter().find(|(_, count)| **count > 0)?;
        Some(value)
    }

    /// MAX of the values, and none where there is no value but NULL.
    pub(crate) fn greatest(&self) -> Option<&Value>
        ensures { IsExtreme higher self.now.values (option_copied result) }
    {
        let (value, _) = self.counts.iter().rev().find(|(_, count)| **count > 0)?;
        Some(value)
    }

    /// How many different values there are. NULL is none.
    pub(crate) fn different(&self) -> usize
        ensures { result ≡ length (distinct_values self.now.values) }
    {
        self.different
    }

    /// Makes room for a value, and leaves the values as they are. NULL needs no room.
    pub(crate) fn ready(&mut self, alloc: Global, value: &Value) -> Result<(), AllocError>
        ensures values { self.new.values ≡ self.old.values }
        ensures room { OnOk result (HasRoom value.now self.new.room) }
        ensures kept { KeepsRoom self.old.room self.new.room }
    {
        if value.is_null() || self.counts.contains_key(value) {
            return Ok(());
        }
        let copy = value.copy(alloc)?;
        self.counts.insert(copy, 0)?;
        Ok(())
    }

    /// Puts a value in so many times, or takes it out, where room was made for it. It takes no memory, and cannot fail.
    /// The value keeps its room, so that it may come again. Later [`Extremes::settle`] lets it go.
    pub(crate) fn put(&mut self, value: &Value, weight: i128)
        requires room { HasRoom value.now self.old.room }
        requires small { nat_abs (weight_of self.old.values (alone value.now)) + nat_abs weight < 2 ^ 127 }
        ensures values { IsAdded (alone value.now) weight self.old.values self.new.values }
        ensures room { self.new.room ≡ self.old.room }
    {
        if value.is_null() {
            self.nulls += weight;
            return;
        }
        let entries = self.counts.len();
        match self.counts.get_mut(value) {
            Some(count) => {
                let others = self.different - one_if_counted(*count);
                *count += weight;
                prove!(others < entries);
                self.different = others + one_if_counted(*count);
            }
            None => unreachable!(),
        }
    }

    /// Lets a value go that is counted no longer.
    pub(crate) fn settle(&mut self, value: &Value)
        ensures values { self.new.values ≡ self.old.values }
        ensures kept { KeepsOtherRoom value.now self.old.room self.new.room }
        ensures settled { IsGone value.now self.new → ⊥ }
    {
        if self.is_gone(value) {
            self.counts.remove(value);
        }
    }

    /// Whether a value has an entry of count zero.
    fn is_gone(&self, value: &Value) -> bool
        ensures { IsTrue result ↔ IsGone value.now self.now }
    {
        match self.counts.get(value) {
            Some(count) => is_zero(*count),
            None => false,
        }
    }
}

/// One for a value that is counted, and none for one that waits.
fn one_if_counted(count: i128) -> usize
    ensures { result ≡ (if int_lt (pos 0) count then 1 else 0) }
{
    if count > 0 { 1 } else { 0 }
}

fn is_zero(count: i128) -> bool
    ensures { IsTrue result ↔ (count ≡ pos 0) }
{
    count == 0
}
