//! The aggregate beside which rows are counted.
//!
//! A SUM counts the values that it adds up. So COUNT(*) need not count the rows of a group again: beside the first SUM it
//! counts the NULLs alone that the SUM meets, and mostly there are none.
ghost use Rattle.std.specs.List.{AllByRecursion};
ghost use Rattle.std.specs.Prelude.{◌<◌, ◌≡◌, IfOk, IfSome, length};
ghost use Rattle.cq_hash_groups.specs.Exact.{AreExactOver};
ghost use Rattle.cq_hash_groups.specs.Lead.{IsLead, is_count_all, is_sum, lead_at, lead_in, sum_place};

use crate::arguments::argument_of;
use cq_hash_groups_slots::Slots;
use cq_model::Aggregate;
use cq_operators_scans::{Operand, Scan};
use cq_vectors::Buffers;
use std::alloc::{AllocError, Global};

/// The first SUM, and what it reads of some rows.
#[derive(Drop)]
pub(crate) struct Lead<'s, 'a> {
    pub(crate) place: usize,
    pub(crate) values: Operand<'s, 'a>,
}

/// What the first SUM reads of the rows, if there is one.
pub(crate) fn lead_over<'s, 'a>(
    alloc: Global,
    buffers: &mut Buffers,
    aggregates: &'a [Aggregate],
    scan: &'s Scan<'a>,
) -> Result<Option<Lead<'s, 'a>>, AllocError>
    requires { AllByRecursion (AreExactOver aggregates.now) scan.now }
    ensures { IfOk result (IsLead aggregates.now scan.now) }
{
    match sum_place(aggregates) {
        Some(place) => {
            let values = argument_of(alloc, buffers, &aggregates[place], scan)?;
            Ok(Some(Lead { place, values }))
        }
        None => Ok(None),
    }
}

/// Lets go what it read, and keeps the memory of what was worked out.
pub(crate) fn let_go(lead: Option<Lead<'_, '_>>, buffers: &mut Buffers) {
    if let Some(lead) = lead {
        lead.values.give_back(buffers);
    }
}

/// What is kept for the first SUM, if there is one.
pub(crate) fn lead_of<'s>(aggregates: &[Aggregate], slots: &'s [Slots]) -> Option<&'s Slots>
    ensures { lead_in result ≡ lead_at aggregates.now slots.now }
{
    match sum_place(aggregates) {
        Some(place) => slots.get(place),
        None => None,
    }
}

/// Where the first SUM stands.
fn sum_place(aggregates: &[Aggregate]) -> Option<usize>
    ensures place { result ≡ sum_place aggregates.now }
    ensures within { IfSome result (λ place. place < length aggregates.now) }
{
    aggregates.iter().position(|aggregate| is_sum(aggregate))
}

fn is_sum(aggregate: &Aggregate) -> bool
    ensures { result ≡ is_sum aggregate.now }
{
    matches!(aggregate, Aggregate::Sum(_))
}

pub(crate) fn is_count_all(aggregate: &Aggregate) -> bool
    ensures { result ≡ is_count_all aggregate.now }
{
    matches!(aggregate, Aggregate::CountAll)
}
