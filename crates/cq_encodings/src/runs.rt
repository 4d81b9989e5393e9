//! Values that stand still for many places.
//!
//! Reading at a place walks over the runs before it.
ghost use Rattle.std.specs.Prelude.{IfOk, IfSome, IsTrue, drop, length, map, slice_index_or, take, ◌<◌, ◌≡◌, ◌↔◌};
ghost use Rattle.cq_values.specs.Lent.{owned};
ghost use Rattle.cq_values.specs.declared.value.Value.TheVariants.{Null};
ghost use Rattle.cq_encodings.specs.Runs.{AreRuns, IsConstant, value_in, values_of_runs};

use cq_encodings_plain::{Decoded, Encoded};
use cq_values::{Lent, Value};
use std::alloc::{AllocError, Global};
use std::marker::Model;

/// One value, so many times.
#[derive(Drop)]
struct Run {
    value: Value,
    count: usize,
}

/// Values as runs of one value each: none is empty, and neighbours have different values.
#[derive(Drop)]
pub struct Runs {
    runs: Vec<Run>,
    len: usize,
}

impl Model for Runs {
    ghost use Rattle.std.specs.Prelude.{List, length, ◌≡◌};
    ghost use Rattle.cq_values.specs.declared.value.Value.{Value as Datum};
    ghost use Rattle.cq_encodings.specs.Runs.{AreRuns, values_of_runs};

    ghost Value = { List Datum };

    ghost view = { λ r. values_of_runs r.runs.items };

    ghost invariant = { λ r. (r.len ≡ length (values_of_runs r.runs.items)) × AreRuns r.runs.items };
}

impl Runs {
    /// An error comes where there is no memory for the runs and their values.
    pub fn of(alloc: Global, values: &[Lent<'_>]) -> Result<Runs, AllocError>
        ensures { IfOk result (λ runs. runs ≡ map owned values.now) }
    {
        Ok(Runs {
            runs: runs_of(alloc, values)?,
            len: values.len(),
        })
    }

    /// The value of all places, where there is exactly one run.
    pub fn one(&self) -> Option<Lent<'_>>
        ensures { IfSome result (λ value. IsConstant (owned value) self.now) }
    {
        match self.runs.as_slice() {
            [run] => Some(run.value.lend()),
            _ => None,
        }
    }
}

impl Encoded for Runs {
    ghost values = { λ r. r };

    fn len(&self) -> usize {
        self.len
    }

    fn value_at(&self, place: usize) -> Lent<'_> {
        lend_at(&self.runs, place)
    }

    fn decode_into<'a>(&'a self, start: usize, to: &mut Decoded<'a>) {
        lend_from(&self.runs, start, to);
    }
}

fn runs_of(alloc: Global, values: &[Lent<'_>]) -> Result<Vec<Run>, AllocError>
    ensures same { IfOk result (λ runs. values_of_runs runs.items ≡ map owned values.now) }
    ensures runs { IfOk result (λ runs. AreRuns runs.items) }
{
    let mut runs = Vec::new(alloc);
    if values.is_empty() {
        return Ok(runs);
    }
    let mut first = 0;
    let mut count = 1;
    for i in 1..values.len() {
        if are_same(values, i, first) {
            count += 1;
        } else {
            let value = copy_at(alloc, values, first)?;
            runs.push(Run { value, count })?;
            first = i;
            count = 1;
        }
    }
    let value = copy_at(alloc, values, first)?;
    runs.push(Run { value, count })?;
    Ok(runs)
}

fn are_same(values: &[Lent<'_>], a: usize, b: usize) -> bool
    requires a { a < length values.now }
    requires b { b < length values.now }
    ensures { IsTrue result ↔ (value_in values.now a ≡ value_in values.now b) }
{
    are_equal(&values[a], &values[b])
}

/// Whether two lent values are one.
pub(crate) fn are_equal(a: &Lent<'_>, b: &Lent<'_>) -> bool
    ensures { IsTrue result ↔ (owned a.now ≡ owned b.now) }
{
    match (a, b) {
        (Lent::Number(m), Lent::Number(n)) => m == n,
        (Lent::Day(d), Lent::Day(e)) => d == e,
        (Lent::Text(s), Lent::Text(t)) => s == t,
        (Lent::Null, Lent::Null) => true,
        _ => false,
    }
}

/// Whether values are one run at most, or runs of 1,024 and more on average: a place is read by a walk over the runs,
/// which are no more than 64 then. Counts no further than it must.
pub(crate) fn stand_still<T, F: Fn(&T, &T) -> bool>(values: &[T], are_equal: F) -> bool
    requires { F.IsAlwaysCallable are_equal }
{
    let most = (values.len() / 1_024).max(1);
    let mut count = 1;
    for i in 1..values.len() {
        if !are_equal(&values[i], &values[i - 1]) {
            if count == most {
                return false;
            }
            count += 1;
        }
    }
    true
}

fn copy_at(alloc: Global, values: &[Lent<'_>], place: usize) -> Result<Value, AllocError>
    requires { place < length values.now }
    ensures { IfOk result (λ value. value ≡ value_in values.now place) }
{
    values[place].to_value(alloc)
}

fn lend_at(runs: &[Run], place: usize) -> Lent<'_>
    ensures { owned result ≡ slice_index_or (values_of_runs runs.now) place Null }
{
    let mut left = place;
    for run in runs {
        if left < run.count {
            return run.value.lend();
        }
        left -= run.count;
    }
    Lent::Null
}

/// Lends the values from a place on, 1,024 of them or as many as are left, in place of those that were lent before.
fn lend_from<'a>(runs: &'a [Run], start: usize, to: &mut Decoded<'a>)
    ensures { to.new ≡ take 1024 (drop start (values_of_runs runs.now)) }
{
    to.clear();
    let mut skip = start;
    let mut left = 1024;
    for run in runs {
        let passed = skip.min(run.count);
        let here = (run.count - passed).min(left);
        for _ in 0..here {
            to.push_value(&run.value);
        }
        skip -= passed;
        left -= here;
    }
}
