//! Columns in each form that they are kept in, read at places of several of their parts.
ghost use Rattle.std.specs.Bool.{OnTrue};
ghost use Rattle.std.specs.Prelude.{length, ◌≤◌};
ghost use Rattle.cq_encodings_vectors.specs.Places.{AreBelow};

use cq_encodings::choose;
use cq_encodings_vectors::column_at;
use cq_values::{Text, Value, cmp_lent};
use std::alloc::{AllocError, Global};
use std::cmp::Ordering;
use std::test::Fail;

pub(crate) fn are_below(end: usize, places: &[u16]) -> bool
    ensures { OnTrue result (AreBelow end places.now) }
{
    for place in places {
        if end <= usize::from(*place) {
            return false;
        }
    }
    true
}

/// A value by the form that a column of such is kept in: differences, plain numbers, wide numbers, a dictionary, plain
/// texts, and else runs.
fn value_of(alloc: Global, form: char, place: usize) -> Result<Value, AllocError> {
    let number = place as i128;
    match form {
        'p' => Ok(Value::Number(number % 100)),
        'd' => Ok(Value::Number(number.wrapping_mul(3_000_000))),
        'n' => Ok(Value::Number((number % 7).wrapping_mul(1 << 40))),
        'w' => Ok(Value::Number((number % 7).wrapping_mul(1 << 80))),
        't' => Ok(Value::Text(Text::new(alloc, if place % 2 == 0 { "a" } else { "ab" })?)),
        'u' => {
            let text = format!(in alloc; "text {place}")?;
            Ok(Value::Text(Text::new(alloc, &text)?))
        }
        _ => Ok(Value::Number(number / 1_024)),
    }
}

/// So many values, with NULL in each place that ends in 7.
fn values(alloc: Global, form: char, len: usize) -> Result<Vec<Value>, AllocError> {
    let mut values = Vec::new(alloc);
    for place in 0..len {
        let value = if place % 10 == 7 {
            Value::Null
        } else {
            value_of(alloc, form, place)?
        };
        values.push(value)?;
    }
    Ok(values)
}

/// Whether the column of the values has at the places what stands there.
fn is_read(alloc: Global, values: &[Value], places: &[u16]) -> Result<bool, AllocError>
    requires few { length places.now ≤ 1024 }
    requires there { AreBelow (length values.now) places.now }
{
    let encoded = choose(alloc, values)?;
    let read = column_at(alloc, &encoded, places)?;
    let mut same = read.len() == places.len();
    for i in 0..places.len() {
        let order = match values.get(usize::from(places[i])) {
            Some(value) => cmp_lent(&read.lend(i), &value.lend()),
            None => Ordering::Less,
        };
        same = same && order == Ordering::Equal;
    }
    drop(read);
    drop(encoded);
    Ok(same)
}

#[test]
fn a_column_is_read_at_places_of_several_parts(rt: HostRuntime) -> Result<(), Fail> {
    let alloc = rt.alloc();
    // the ends of three parts, in no order, with NULL among them and one place twice
    let places: &[u16] = &[2_049, 0, 1_023, 1_024, 7, 2_047, 2_048, 1_027, 1_024];
    for form in "pdnwtur".chars() {
        let values = values(alloc, form, 2_050)?;
        assert!(rt; are_below(values.len(), places) && places.len() <= 1_024);
        assert!(rt; is_read(alloc, values.as_slice(), places)?, "{form}");
        assert!(rt; is_read(alloc, values.as_slice(), &[])?, "{form}");
    }
    Ok(())
}
