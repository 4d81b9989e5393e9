//! Sums of groups.
//!
//! They are kept in 64 bits for as long as these hold each of them, and after that so wide that they hold any total.
ghost use Rattle.std.specs.Prelude.{◌-◌, ◌^◌, ◌≡◌, IfErr, IfOk, OnErr, OnOk, [], length, slice_index_or};
ghost use Rattle.cq_values.specs.Lent.{owned};
ghost use Rattle.cq_model.specs.Group.{InRange};
ghost use Rattle.cq_hash_groups_sums.specs.Puts.{AreNumbers, AreSumsWithin, IsTotalFault, SumsGrowBy, grown, most_before, no_sum, put_all, put_sum, shown_sum};

use crate::small_sums::SmallSums;
use crate::wide_sums::WideSums;
use cq_model::ShowFault;
use cq_values::Lent;
use cq_vectors::Vector;
use std::alloc::{AllocError, Global};
use std::marker::Model;

/// The sums of all groups in one of two forms.
#[derive(Drop)]
pub enum Width {
    Small(SmallSums),
    Wide(WideSums),
}

/// The sum of each group, by its number.
#[derive(Drop)]
pub struct Sums {
    sums: Width,
}

impl Model for Sums {
    ghost use Rattle.std.specs.Prelude.{List};
    ghost use Rattle.cq_hash_groups_sums.specs.declared.wide_sums.Sum.{Sum};
    ghost use Rattle.cq_hash_groups_sums.specs.Width.{sums_in};

    ghost Value = { List Sum };

    ghost view = { λ s. sums_in s.sums };
}

impl Sums {
    /// No groups. Takes no memory.
    pub fn new(alloc: Global) -> Sums
        ensures { result ≡ [] }
    {
        Sums {
            sums: Width::Small(SmallSums::new(alloc)),
        }
    }

    /// Makes so many groups of them, where a new one has no values.
    pub fn grow(&mut self, groups: usize) -> Result<(), AllocError>
        ensures ok { OnOk result (self.new ≡ grown no_sum groups self.old) }
        ensures err { OnErr result (self.new ≡ self.old) }
    {
        match &mut self.sums {
            Width::Small(sums) => sums.grow(groups),
            Width::Wide(sums) => sums.grow(groups),
        }
    }

    /// Puts the values into the groups of their numbers. The first total that 64 bits do not hold makes all sums wide.
    pub fn put(
        &mut self,
        alloc: Global,
        numbers: &[usize],
        values: &Vector<'_>,
    ) -> Result<(), AllocError>
        requires there { AreNumbers (length self.old) numbers.now }
        requires same { length numbers.now ≡ length values.now }
        requires room { AreSumsWithin (most_before (length numbers.now)) self.old }
        ensures sums { OnOk result (self.new ≡ put_all put_sum no_sum numbers.now values.now self.old) }
        ensures within { SumsGrowBy (length numbers.now) self.old self.new }
    {
        match &mut self.sums {
            Width::Small(small) => {
                let done = small.put(numbers, values);
                if done < numbers.len() {
                    let mut wide = WideSums::of(alloc, small)?;
                    wide.put(done, numbers, values);
                    self.sums = Width::Wide(wide);
                }
            }
            Width::Wide(wide) => wide.put(0, numbers, values),
        }
        Ok(())
    }

    /// How many values a group has.
    pub fn count(&self, group: usize) -> u64
        requires { AreSumsWithin (2 ^ 64 - 1) self.now }
        ensures { result ≡ (slice_index_or self.now group no_sum).count }
    {
        match &self.sums {
            Width::Small(sums) => sums.count(group),
            Width::Wide(sums) => sums.count(group) as u64,
        }
    }

    /// The total of a group, which is NULL of no values.
    pub fn lend(&self, group: usize) -> Result<Lent<'_>, ShowFault>
        ensures value { IfOk result (λ v. owned v ≡ shown_sum (slice_index_or self.now group no_sum)) }
        ensures range { OnOk result (InRange (slice_index_or self.now group no_sum).total) }
        ensures fault { IfErr result (IsTotalFault (slice_index_or self.now group no_sum)) }
    {
        match &self.sums {
            Width::Small(sums) => Ok(sums.lend(group)),
            Width::Wide(sums) => sums.lend(group),
        }
    }
}
