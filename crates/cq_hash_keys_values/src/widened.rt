//! Numbers and days of a vector as whole numbers of 64 bits.
//!
//! What stands above a base, or in 32 bits, is written into a list once a vector, so that one loop serves all forms.
ghost use Rattle.std.specs.Prelude.{IfSome, length, take, ◌≡◌, ◌≤◌};
ghost use Rattle.cq_vectors_stored.specs.LentColumns.{FitAbove};
ghost use Rattle.cq_vectors_stored.specs.Offsets.{offsets_in};
ghost use Rattle.cq_hash_keys_values.specs.Whole.{PutsAbove, StandsAs};

use crate::kind::Kind;
use cq_vectors::{Form, Vector};
use cq_vectors_stored::{LentDays, Narrow, NarrowDays, Offsets};

/// Writes the values to the first places, if they have one of these forms and none is NULL. Tells their kind.
pub(crate) fn widen(column: &Vector<'_>, to: &mut [i64]) -> Option<Kind>
    requires { length to.old ≡ 1024 }
    ensures long { length to.new ≡ 1024 }
    ensures whole { IfSome result (λ kind. StandsAs kind to.new column.now) }
{
    match column.form() {
        Form::Narrow(numbers) => widen_numbers(numbers, to),
        Form::NarrowDays(days) => widen_days(days, to),
        Form::Days(days) => copy_days(&days.lend_all(), to),
        Form::LentDays(days) => copy_days(days, to),
        _ => None,
    }
}

fn widen_numbers(numbers: &Narrow<'_>, to: &mut [i64]) -> Option<Kind>
    requires { length to.old ≡ 1024 }
    ensures long { length to.new ≡ 1024 }
    ensures whole { IfSome result (λ kind. StandsAs kind to.new numbers.now) }
{
    if !numbers.nulls().is_clear() {
        return None;
    }
    let (base, offsets) = numbers.parts();
    put_above(base, &offsets, to);
    Some(Kind::Number)
}

fn widen_days(days: &NarrowDays<'_>, to: &mut [i64]) -> Option<Kind>
    requires { length to.old ≡ 1024 }
    ensures long { length to.new ≡ 1024 }
    ensures whole { IfSome result (λ kind. StandsAs kind to.new days.now) }
{
    if !days.nulls().is_clear() {
        return None;
    }
    let (base, offsets) = days.parts();
    put_above(i64::from(base), &offsets, to);
    Some(Kind::Day)
}

fn copy_days(days: &LentDays<'_>, to: &mut [i64]) -> Option<Kind>
    requires { length to.old ≡ 1024 }
    ensures long { length to.new ≡ 1024 }
    ensures whole { IfSome result (λ kind. StandsAs kind to.new days.now) }
{
    if !days.nulls().is_clear() {
        return None;
    }
    put_days(days.values(), to);
    Some(Kind::Day)
}

/// Writes the number at each offset above the base.
fn put_above(base: i64, offsets: &Offsets<'_>, to: &mut [i64])
    requires fit { FitAbove base (offsets_in offsets.now) }
    requires long { length (offsets_in offsets.now) ≤ length to.old }
    ensures same { length to.new ≡ length to.old }
    ensures put { PutsAbove base (offsets_in offsets.now) to.new }
{
    for i in 0..offsets.len() {
        to[i] = base + i64::from(offsets.at(i));
    }
}

/// Writes the number of each day.
fn put_days(days: &[i32], to: &mut [i64])
    requires { length days.now ≤ length to.old }
    ensures same { length to.new ≡ length to.old }
    ensures put { take (length days.now) to.new ≡ days.now }
{
    for i in 0..days.len() {
        to[i] = i64::from(days[i]);
    }
}
