ghost use Rattle.std.specs.List.{AllByRecursion};
ghost use Rattle.cq_encodings_plain.specs.Kind.{IsOf};
ghost use Rattle.cq_encodings_plain.specs.declared.kind.Kind.TheVariants.{Numbers};

use crate::{AnyEncoded, Deltas, Dict, Packed, Runs, choose, choose_numbers};
use cq_encodings_plain::{Decoded, Encoded, Kind, Plain};
use cq_values::{Day, Lent, Text, Value, cmp_lent};
use std::alloc::{AllocError, Global};
use std::test::Fail;

mod lengths;
mod text_forms;

/// So many numbers from a first one on, each so far above the one before it, and NULL in each place that ends in 7.
fn numbers(alloc: Global, first: i128, step: i128, len: u32) -> Result<Vec<Value>, AllocError> {
    let mut values = Vec::new(alloc);
    for i in 0..len {
        if i % 10 == 7 {
            values.push(Value::Null)?;
        } else {
            values.push(Value::Number(first.wrapping_add(step.wrapping_mul(i128::from(i)))))?;
        }
    }
    Ok(values)
}

/// So many values that are all one number.
fn equal_numbers(alloc: Global, number: i128, len: u32) -> Result<Vec<Value>, AllocError> {
    let mut values = Vec::new(alloc);
    for _ in 0..len {
        values.push(Value::Number(number))?;
    }
    Ok(values)
}

/// So many texts, of which so many are different.
fn texts(alloc: Global, different: u32, len: u32) -> Result<Vec<Value>, AllocError> {
    let mut values = Vec::new(alloc);
    for i in 0..len {
        let number = i % different.max(1);
        let string = format!(in alloc; "text {number}")?;
        values.push(Value::Text(Text::new(alloc, &string)?))?;
    }
    Ok(values)
}

/// The first and the last day and the one whose number is 0, each behind NULL.
fn days(alloc: Global) -> Result<Vec<Value>, AllocError> {
    let mut values = Vec::new(alloc);
    for number in [-719_162, 0, 2_932_896] {
        values.push(Value::Null)?;
        if let Some(day) = Day::new(number) {
            values.push(Value::Day(day))?;
        }
    }
    Ok(values)
}

fn lent<'a>(alloc: Global, values: &'a [Value]) -> Result<Vec<Lent<'a>>, AllocError> {
    let mut lent: Vec<Lent<'a>> = Vec::new(alloc);
    lent.reserve(values.len())?;
    for value in values {
        lent.push_reserved(value.lend());
    }
    Ok(lent)
}

/// The name of the form that is chosen.
fn chosen(alloc: Global, values: &[Value]) -> Result<&'static str, AllocError> {
    let encoded = choose(alloc, values)?;
    Ok(name_of(&encoded))
}

fn name_of(encoded: &AnyEncoded) -> &'static str {
    match encoded {
        AnyEncoded::Plain(_) => "plain",
        AnyEncoded::Runs(_) => "runs",
        AnyEncoded::Dict(_) => "dict",
        AnyEncoded::Packed(_) => "packed",
        AnyEncoded::Deltas(_) => "deltas",
    }
}

/// Whether the values are read back, one by one, and 1,024 at a time from places around the ends of planes.
fn are_read_back<E: Encoded>(
    alloc: Global,
    encoded: &E,
    values: &[Value],
) -> Result<bool, AllocError> {
    let mut same = encoded.len() == values.len();
    for i in 0..values.len() {
        same = same && cmp_lent(&encoded.value_at(i), &values[i].lend()).is_eq();
    }
    let mut decoded = Decoded::new(alloc)?;
    for start in [0, 1, 1_023, 1_024, 1_025, 9_999_999] {
        encoded.decode_into(start, &mut decoded);
        same = same && are_decoded(&decoded, values, start);
    }
    Ok(same && encoded.value_at(values.len()).is_null())
}

/// Whether the values from a place on were decoded.
fn are_decoded(decoded: &Decoded<'_>, values: &[Value], start: usize) -> bool {
    let lent = decoded.values();
    let left = values.len().saturating_sub(start).min(1_024);
    if decoded.len() != left || lent.len() != left {
        return false;
    }
    for i in 0..left {
        if cmp_lent(&lent[i], &values[start + i].lend()).is_ne() {
            return false;
        }
    }
    true
}

#[test]
fn numbers_are_read_back_from_offsets(rt: HostRuntime) -> Result<(), Fail> {
    let values = numbers(rt.alloc(), -70_000, 9, 2_050)?;
    match Packed::of(rt.alloc(), &lent(rt.alloc(), &values)?)? {
        Some(packed) => assert!(rt; are_read_back(rt.alloc(), &packed, &values)?),
        None => assert!(rt; false),
    }
    Ok(())
}

#[test]
fn numbers_are_read_back_from_steps(rt: HostRuntime) -> Result<(), Fail> {
    let values = numbers(rt.alloc(), -70_000, 9, 2_050)?;
    match Deltas::of(rt.alloc(), &lent(rt.alloc(), &values)?)? {
        Some(deltas) => assert!(rt; are_read_back(rt.alloc(), &deltas, &values)?),
        None => assert!(rt; false),
    }
    Ok(())
}

#[test]
fn one_run_alone_has_one_value(rt: HostRuntime) -> Result<(), Fail> {
    let one = [Lent::Number(7), Lent::Number(7)];
    assert!(rt; Runs::of(rt.alloc(), &one)?.one().is_some());
    let two = [Lent::Number(7), Lent::Null];
    assert!(rt; Runs::of(rt.alloc(), &two)?.one().is_none());
    assert!(rt; Runs::of(rt.alloc(), &[])?.one().is_none());
    Ok(())
}

#[test]
fn days_are_read_back(rt: HostRuntime) -> Result<(), Fail> {
    let values = days(rt.alloc())?;
    let chosen = choose(rt.alloc(), &values)?;
    assert!(rt; matches!(&chosen, AnyEncoded::Packed(_)));
    assert!(rt; are_read_back(rt.alloc(), &chosen, &values)?);
    Ok(())
}

#[test]
fn texts_are_read_back_as_they_are(rt: HostRuntime) -> Result<(), Fail> {
    let values = texts(rt.alloc(), 7, 1_030)?;
    let plain = Plain::of(rt.alloc(), &lent(rt.alloc(), &values)?)?;
    assert!(rt; are_read_back(rt.alloc(), &plain, &values)?);
    Ok(())
}

#[test]
fn texts_are_read_back_from_runs(rt: HostRuntime) -> Result<(), Fail> {
    let values = texts(rt.alloc(), 7, 1_030)?;
    let runs = Runs::of(rt.alloc(), &lent(rt.alloc(), &values)?)?;
    assert!(rt; runs.one().is_none());
    assert!(rt; are_read_back(rt.alloc(), &runs, &values)?);
    Ok(())
}

#[test]
fn texts_are_read_back_from_a_dictionary(rt: HostRuntime) -> Result<(), Fail> {
    let values = texts(rt.alloc(), 7, 1_030)?;
    let lent = lent(rt.alloc(), &values)?;
    assert!(rt; Dict::of(rt.alloc(), &lent, 6)?.is_none());
    match Dict::of(rt.alloc(), &lent, 7)? {
        Some(dict) => {
            assert_eq!(rt; dict.different(), 7);
            assert!(rt; are_read_back(rt.alloc(), &dict, &values)?);
        }
        None => assert!(rt; false),
    }
    Ok(())
}

#[test]
fn values_that_stand_still_are_runs(rt: HostRuntime) -> Result<(), Fail> {
    let thousand = equal_numbers(rt.alloc(), 7, 1000)?;
    assert_eq!(rt; chosen(rt.alloc(), &thousand)?, "runs");
    let mut nulls = Vec::new(rt.alloc());
    nulls.push(Value::Null)?;
    nulls.push(Value::Null)?;
    assert_eq!(rt; chosen(rt.alloc(), &nulls)?, "runs");
    assert_eq!(rt; chosen(rt.alloc(), &[])?, "runs");
    Ok(())
}

#[test]
fn numbers_are_kept_by_how_far_they_are_apart(rt: HostRuntime) -> Result<(), Fail> {
    let close = numbers(rt.alloc(), 1, 1, 1024)?;
    assert_eq!(rt; chosen(rt.alloc(), &close)?, "packed");
    // More values than a segment has: as many as that, or fewer, which rise so slowly lie less than 2^32 apart.
    let rising = numbers(rt.alloc(), -5, 30_000, 160_000)?;
    assert_eq!(rt; chosen(rt.alloc(), &rising)?, "deltas");
    let far = numbers(rt.alloc(), 0, 1 << 40, 1024)?;
    assert_eq!(rt; chosen(rt.alloc(), &far)?, "plain");
    let wide = numbers(rt.alloc(), 1 << 90, 1, 1024)?;
    assert_eq!(rt; chosen(rt.alloc(), &wide)?, "plain");
    Ok(())
}

/// The name of the form that is chosen for numbers, if their values are kept in the same one.
fn chosen_alike(alloc: Global, numbers: &[i64]) -> Result<&'static str, AllocError>
    requires { AllByRecursion (IsOf Numbers) numbers.now }
{
    let mut values = Vec::new(alloc);
    for number in numbers {
        values.push(Value::Number(i128::from(*number)))?;
    }
    let encoded = choose_numbers(alloc, Kind::Numbers, numbers)?;
    let name = name_of(&encoded);
    Ok(if chosen(alloc, &values)? == name {
        name
    } else {
        "another"
    })
}

#[test]
fn numbers_are_kept_as_their_values_are(rt: HostRuntime) -> Result<(), Fail> {
    assert_eq!(rt; chosen_alike(rt.alloc(), &[])?, "runs");
    assert_eq!(rt; chosen_alike(rt.alloc(), &[7, 7, 7])?, "runs");
    assert_eq!(rt; chosen_alike(rt.alloc(), &[1, 300, -5])?, "packed");
    assert_eq!(rt;
        chosen_alike(rt.alloc(), &[0, 5_000_000_000, 5_000_000_001])?,
        "plain"
    );
    assert_eq!(rt; chosen_alike(rt.alloc(), &[i64::MIN, i64::MAX])?, "plain");
    Ok(())
}

#[test]
fn texts_are_kept_by_how_many_are_different(rt: HostRuntime) -> Result<(), Fail> {
    let few = texts(rt.alloc(), 250, 1000)?;
    assert_eq!(rt; chosen(rt.alloc(), &few)?, "dict");
    let many = texts(rt.alloc(), 251, 1000)?;
    assert_eq!(rt; chosen(rt.alloc(), &many)?, "plain");
    Ok(())
}
