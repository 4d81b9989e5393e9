//! What is kept for each aggregate, as it is told.
ghost use Rattle.std.specs.Prelude.{◌+◌, ◌-◌, ◌<◌, ◌^◌, ◌≡◌, IfErr, IfOk, OnOk, map};
ghost use Rattle.cq_values.specs.Lent.{owned};
ghost use Rattle.cq_model.specs.declared.fault.ShowFault.TheVariants.{SumOutOfRange};
ghost use Rattle.cq_hash_groups.specs.Groups.{AreAllWithin};
ghost use Rattle.cq_hash_groups.specs.Lead.{lead_at, lead_in, told, told_one};
ghost use Rattle.cq_hash_groups.specs.Shown.{CanShowFrom, shown_from};
ghost use Rattle.cq_hash_groups_slots.specs.Slots.{AreWithin, CanShow, shown_at};

use crate::lead::lead_of;
use cq_hash_groups_slots::Slots;
use cq_model::{Aggregate, ShowFault};
use cq_values::Lent;
use std::alloc::{AllocError, Global};
use std::marker::Model;

/// What is kept for an aggregate, and for the SUM whose NULLs it counts. To contracts it is what it tells by both.
#[derive(Drop)]
pub(crate) struct Told<'s> {
    own: &'s Slots,
    lead: Option<&'s Slots>,
}

impl<'s> Model for Told<'s> {
    ghost use Rattle.std.specs.Prelude.{◌-◌, ◌^◌};
    ghost use Rattle.cq_hash_groups.specs.Lead.{lead_in};
    ghost use Rattle.cq_hash_groups_slots.specs.declared.slots.Slots.{Slots};
    ghost use Rattle.cq_hash_groups_slots.specs.Slots.{AreWithin, beside};

    ghost Value = { Slots };

    ghost view = { λ t. beside (lead_in t.lead) t.own.now };

    ghost invariant = { λ t. AreWithin (2 ^ 64 - 1) (lead_in t.lead) };
}

impl Told<'_> {
    /// What a group shows, where it stands.
    pub(crate) fn lend(&self, group: usize) -> Result<Lent<'_>, ShowFault>
        ensures value { IfOk result (λ v. owned v ≡ shown_at group self.now) }
        ensures range { OnOk result (CanShow group self.now) }
        ensures fault { IfErr result (λ e. e ≡ SumOutOfRange → CanShow group self.now → ⊥) }
    {
        match self.lead {
            Some(lead) => self.own.lend_beside(lead, group),
            None => self.own.lend(group),
        }
    }

    /// What so many groups from one on show, where it stands.
    pub(crate) fn lend_from(
        &self,
        alloc: Global,
        start: usize,
        len: usize,
    ) -> Result<Vec<Lent<'_>>, ShowFault>
        requires { start + len < 2 ^ 64 }
        ensures values { IfOk result (λ values. map owned values.items ≡ shown_from self.now start len) }
        ensures range { OnOk result (CanShowFrom start len self.now) }
        ensures fault { IfErr result (λ e. e ≡ SumOutOfRange → CanShowFrom start len self.now → ⊥) }
    {
        let mut values = Vec::new(alloc);
        values.reserve(len)?;
        for place in 0..len {
            match self.lend(start + place) {
                Ok(value) => values.push_reserved(value),
                Err(fault) => return Err(fault),
            }
        }
        Ok(values)
    }
}

/// What each aggregate tells.
pub(crate) fn told_slots<'s>(
    alloc: Global,
    aggregates: &[Aggregate],
    slots: &'s [Slots],
) -> Result<Vec<Told<'s>>, AllocError>
    requires { AreAllWithin (2 ^ 64 - 1) slots.now }
    ensures { IfOk result (λ all. all.items ≡ told (lead_at aggregates.now slots.now) aggregates.now slots.now) }
{
    let lead = lead_of(aggregates, slots);
    let mut all = Vec::new(alloc);
    let len = slots.len().min(aggregates.len());
    for place in 0..len {
        all.push(told_by(&aggregates[place], lead, &slots[place]))?;
    }
    Ok(all)
}

/// What one aggregate tells.
fn told_by<'s>(aggregate: &Aggregate, lead: Option<&'s Slots>, own: &'s Slots) -> Told<'s>
    requires { AreWithin (2 ^ 64 - 1) (lead_in lead) }
    ensures { result ≡ told_one (lead_in lead.entry) aggregate.now own.now }
{
    match aggregate {
        Aggregate::CountAll => Told { own, lead },
        _ => Told { own, lead: None },
    }
}
