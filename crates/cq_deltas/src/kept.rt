//! What is kept of an aggregate: a count, for a SUM also the exact total, and for MIN, MAX and COUNT(DISTINCT ..) all
//! values with counts.
//!
//! The order of calls is that of a group. A count and a total take no memory, so [`Kept::ready`] grows only where
//! values are listed. Whether a total can be shown, [`Kept::value`] tells.
ghost use Rattle.std.specs.Option.{option_copied};
ghost use Rattle.std.specs.Prelude.{nat_abs, ◌*ℤ◌, ◌+ℤ◌, ◌+◌, ◌<◌, ◌^◌, ◌≡◌, ◌↔◌, ◌≤◌, IfOk, IfSome, IsSome, OnOk, unwrap_or, []};
ghost use Rattle.cq_values.specs.declared.value.Value.TheVariants.{Null};
ghost use Rattle.cq_model.specs.Group.{InRange};
ghost use Rattle.cq_views_model.specs.Kept.{kept_of, kept_value};
ghost use Rattle.cq_deltas.specs.Kept.{HasRoomFor, KeepsRoomFor, KeptHolds, kept_with, seen, total_move};
ghost use Rattle.cq_deltas.specs.Shown.{CanBeShown, RefusesUnless, shown_total};
ghost use Rattle.cq_model.specs.Width.{number_limit};

use crate::change::Addend;
use crate::extremes::Extremes;
use cq_model::{Aggregate, ShowFault};
use cq_values::{Total, Value};
use std::alloc::{AllocError, Global};

/// What is kept of an aggregate: how many rows or values there are, for a SUM their exact total beside, and for MIN,
/// MAX and COUNT(DISTINCT ..) the values with their counts, in order.
#[derive(Debug, Drop)]
pub(crate) enum Kept {
    Counted(i128),
    Totalled(CountedTotal),
    Listed(Extremes),
}

/// The exact total of a SUM, and how many values it has.
#[derive(Debug, Drop)]
pub(crate) struct CountedTotal {
    values: i128,
    total: Total,
}

impl Kept {
    /// What is kept of the aggregate of no rows.
    pub(crate) fn empty(alloc: Global, aggregate: &Aggregate) -> Kept
        ensures { seen result ≡ kept_of [] aggregate.now }
    {
        match aggregate {
            Aggregate::CountAll | Aggregate::Count(_) => Kept::Counted(0),
            Aggregate::Sum(_) => Kept::Totalled(CountedTotal {
                values: 0,
                total: Total::new(),
            }),
            Aggregate::CountDistinct(_) | Aggregate::Min(_) | Aggregate::Max(_) => {
                Kept::Listed(Extremes::new(alloc))
            }
        }
    }

    /// Makes room for the argument of a row, and leaves what is kept as it is.
    pub(crate) fn ready(&mut self, alloc: Global, addend: &Option<Addend>) -> Result<(), AllocError>
        ensures seen { seen self.new ≡ seen self.old }
        ensures room { OnOk result (HasRoomFor addend.now self.new) }
        ensures kept { KeepsRoomFor self.old self.new }
    {
        match (self, addend) {
            (Kept::Listed(values), Some(Addend::Listed(value))) => values.ready(alloc, value),
            _ => Ok(()),
        }
    }

    /// Puts the argument of a row in. NULL, which is `None`, adds nothing.
    pub(crate) fn add(&mut self, weight: i128, addend: &Option<Addend>)
        requires room { HasRoomFor addend.now self.old }
        requires holds { KeptHolds (nat_abs weight) (total_move weight addend.now) (seen self.old) }
        ensures seen { seen self.new ≡ kept_with weight addend.now (seen self.old) }
        ensures kept { KeepsRoomFor self.old self.new }
    {
        match (self, addend) {
            (Kept::Counted(count), Some(Addend::Number(_))) => *count += weight,
            (Kept::Totalled(total), Some(Addend::Number(value))) => total.add(weight, *value),
            (Kept::Listed(values), Some(Addend::Listed(value))) => values.put(value, weight),
            _ => {}
        }
    }

    /// Lets the argument's value go where it is counted no longer.
    pub(crate) fn settle(&mut self, addend: &Option<Addend>)
        ensures { seen self.new ≡ seen self.old }
    {
        match (self, addend) {
            (Kept::Listed(values), Some(Addend::Listed(value))) => values.settle(value),
            _ => {}
        }
    }

    /// The value of the aggregate.
    pub(crate) fn value(&self, alloc: Global, aggregate: &Aggregate) -> Result<Value, ShowFault>
        ensures value { IfOk result (λ v. v ≡ kept_value aggregate.now (seen self.now)) }
        ensures range { OnOk result (CanBeShown aggregate.now (seen self.now)) }
        ensures fault { RefusesUnless (CanBeShown aggregate.now (seen self.now)) result }
    {
        match (aggregate, self) {
            (Aggregate::CountAll | Aggregate::Count(_), Kept::Counted(count)) => {
                Ok(Value::Number(*count))
            }
            (Aggregate::CountDistinct(_), Kept::Listed(values)) => {
                Ok(Value::Number(values.different() as i128))
            }
            (Aggregate::Sum(_), Kept::Totalled(total)) => match total.value() {
                Some(value) => Ok(value),
                None => Err(ShowFault::SumOutOfRange),
            },
            (Aggregate::Min(_), Kept::Listed(values)) => Ok(copied(alloc, values.least())?),
            (Aggregate::Max(_), Kept::Listed(values)) => Ok(copied(alloc, values.greatest())?),
            _ => Ok(Value::Null),
        }
    }
}

/// A copy of an extreme, and NULL where there is none.
fn copied(alloc: Global, extreme: Option<&Value>) -> Result<Value, AllocError>
    ensures { IfOk result (λ v. v ≡ unwrap_or (option_copied extreme.entry) Null) }
{
    match extreme {
        Some(value) => value.copy(alloc),
        None => Ok(Value::Null),
    }
}

impl CountedTotal {
    fn add(&mut self, weight: i128, value: i128)
        requires count { nat_abs self.old.values + nat_abs weight < number_limit }
        requires total { nat_abs self.old.total + nat_abs (value *ℤ weight) ≤ 2 ^ 250 }
        ensures count { self.new.values ≡ self.old.values +ℤ weight }
        ensures total { self.new.total ≡ self.old.total +ℤ value *ℤ weight }
    {
        self.values += weight;
        self.total.add_times(value, weight);
    }

    /// The total, which is NULL of no values, and `None` where it is out of range.
    fn value(&self) -> Option<Value>
        ensures value { IfSome result (λ v. v ≡ shown_total self.now.values self.now.total) }
        ensures range { IsSome result ↔ InRange self.now.total }
    {
        let total = self.total.to_i128()?;
        if self.values == 0 {
            Some(Value::Null)
        } else {
            Some(Value::Number(total))
        }
    }
}
