//! Rows put into what is kept for each aggregate.
ghost use Rattle.std.specs.List.{AllByRecursion};
ghost use Rattle.std.specs.Prelude.{◌+◌, ◌<◌, ◌≡◌, IfOk, None, OnOk, length, map, slice_index_or, ℕ};
ghost use Rattle.cq_hash_groups.specs.Exact.{AreExactOver, IsExactFor};
ghost use Rattle.cq_hash_groups.specs.Arguments.{argument};
ghost use Rattle.cq_hash_groups.specs.Groups.{AreAdded, AreAllWithin, IsAdded, StayWithin, added_as, new_slots};
ghost use Rattle.cq_hash_groups_sums.specs.Puts.{AreNumbers, most_before};
ghost use Rattle.cq_hash_groups.specs.Lead.{IsLead, first_sum};
ghost use Rattle.cq_hash_groups_slots.specs.Slots.{AreWithin, grown_slots, put_nulls, put_slots};
ghost use Rattle.cq_model.specs.declared.query.Aggregate.TheVariants.{CountAll};

use crate::arguments::argument_of;
use crate::lead::{Lead, is_count_all, lead_over, let_go};
use cq_hash_groups_slots::Slots;
use cq_model::Aggregate;
use cq_operators_scans::Scan;
use cq_vectors::{Buffers, Vector};
use std::alloc::{AllocError, Global};

/// What is kept of groups that have no rows.
pub(crate) fn first_slots(
    alloc: Global,
    aggregates: &[Aggregate],
    groups: usize,
) -> Result<Vec<Slots>, AllocError>
    ensures { IfOk result (λ all. all.items ≡ new_slots groups aggregates.now) }
{
    let mut all = Vec::new(alloc);
    for aggregate in aggregates {
        let mut slots = Slots::new(alloc, aggregate);
        slots.grow(groups)?;
        all.push(slots)?;
    }
    Ok(all)
}

/// Puts what each aggregate reads of the rows into the groups of their numbers.
pub(crate) fn add_all<'a>(
    alloc: Global,
    buffers: &mut Buffers,
    aggregates: &'a [Aggregate],
    scan: &Scan<'a>,
    groups: usize,
    numbers: &[usize],
    slots: &mut [Slots],
) -> Result<(), AllocError>
    requires exact { AllByRecursion (AreExactOver aggregates.now) scan.now }
    requires there { AreNumbers groups numbers.now }
    requires same { length numbers.now ≡ length scan.now }
    requires room { AreAllWithin (most_before (length numbers.now)) slots.old }
    ensures ok { OnOk result (AreAdded groups numbers.now scan.now aggregates.now slots.old slots.new) }
    ensures within { StayWithin (length numbers.now) slots.old slots.new }
{
    let read = lead_over(alloc, buffers, aggregates, scan)?;
    let lead = &read;
    let len = slots.len().min(aggregates.len());
    for place in 0..len {
        add_one(
            alloc,
            buffers,
            aggregates,
            place,
            lead,
            scan,
            groups,
            numbers,
            &mut slots[place],
        )?;
    }
    let_go(read, buffers);
    Ok(())
}

/// Puts what one aggregate reads of the rows into the groups of their numbers. What the lead reads is at hand.
fn add_one<'a>(
    alloc: Global,
    buffers: &mut Buffers,
    aggregates: &'a [Aggregate],
    place: usize,
    lead: &Option<Lead<'_, 'a>>,
    scan: &Scan<'a>,
    groups: usize,
    numbers: &[usize],
    slots: &mut Slots,
) -> Result<(), AllocError>
    requires here { place < length aggregates.now }
    requires lead { IsLead aggregates.now scan.now lead.now }
    requires exact { AllByRecursion (AreExactOver aggregates.now) scan.now }
    requires there { AreNumbers groups numbers.now }
    requires same { length numbers.now ≡ length scan.now }
    requires room { AreWithin (most_before (length numbers.now)) slots.old }
    ensures ok { OnOk result (IsAdded aggregates.now place groups numbers.now scan.now slots.old slots.new) }
    ensures within { (n : ℕ) → AreWithin n slots.old → AreWithin (n + length numbers.now) slots.new }
{
    let aggregate = &aggregates[place];
    let Some(lead) = lead else {
        return add_read(alloc, buffers, aggregate, scan, groups, numbers, slots);
    };
    if is_count_all(aggregate) {
        return add_nulls(groups, numbers, lead.values.vector(), slots);
    }
    if lead.place == place {
        return add_values(alloc, groups, numbers, lead.values.vector(), slots);
    }
    add_read(alloc, buffers, aggregate, scan, groups, numbers, slots)
}

fn add_read<'a>(
    alloc: Global,
    buffers: &mut Buffers,
    aggregate: &'a Aggregate,
    scan: &Scan<'a>,
    groups: usize,
    numbers: &[usize],
    slots: &mut Slots,
) -> Result<(), AllocError>
    requires exact { AllByRecursion (IsExactFor aggregate.now) scan.now }
    requires there { AreNumbers groups numbers.now }
    requires same { length numbers.now ≡ length scan.now }
    requires room { AreWithin (most_before (length numbers.now)) slots.old }
    ensures ok { OnOk result (slots.new ≡ added_as None groups numbers.now scan.now aggregate.now slots.old) }
    ensures within { (n : ℕ) → AreWithin n slots.old → AreWithin (n + length numbers.now) slots.new }
{
    let values = argument_of(alloc, buffers, aggregate, scan)?;
    let added = add_values(alloc, groups, numbers, values.vector(), slots);
    values.give_back(buffers);
    added
}

fn add_values(
    alloc: Global,
    groups: usize,
    numbers: &[usize],
    values: &Vector<'_>,
    slots: &mut Slots,
) -> Result<(), AllocError>
    requires there { AreNumbers groups numbers.now }
    requires same { length numbers.now ≡ length values.now }
    requires room { AreWithin (most_before (length numbers.now)) slots.old }
    ensures ok { OnOk result (slots.new ≡ put_slots numbers.now values.now (grown_slots groups slots.old)) }
    ensures within { (n : ℕ) → AreWithin n slots.old → AreWithin (n + length numbers.now) slots.new }
{
    slots.grow(groups)?;
    slots.put(alloc, numbers, values)
}

fn add_nulls(
    groups: usize,
    numbers: &[usize],
    values: &Vector<'_>,
    slots: &mut Slots,
) -> Result<(), AllocError>
    requires there { AreNumbers groups numbers.now }
    requires same { length numbers.now ≡ length values.now }
    requires room { AreWithin (most_before (length numbers.now)) slots.old }
    ensures ok { OnOk result (slots.new ≡ put_nulls numbers.now values.now (grown_slots groups slots.old)) }
    ensures within { (n : ℕ) → AreWithin n slots.old → AreWithin (n + length numbers.now) slots.new }
{
    slots.grow(groups)?;
    slots.put_nulls(numbers, values);
    Ok(())
}
