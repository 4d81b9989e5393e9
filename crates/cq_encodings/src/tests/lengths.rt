//! Each encoding at the lengths at which a plane, a vector and a segment are full or have one value more or less.
use super::{are_decoded, equal_numbers, lent, numbers, texts};
use crate::{Deltas, Dict, Packed, Runs};
use cq_encodings_plain::{Decoded, Encoded, Plain};
use cq_values::{Value, cmp_lent};
use std::alloc::{AllocError, Global};
use std::test::Fail;

const LENGTHS: [u32; 7] = [0, 1, 1_023, 1_024, 1_025, 65_535, 65_536];

/// The same values with NULL at the first place and at the last.
fn with_null_ends(values: Vec<Value>) -> Vec<Value> {
    let mut values = values;
    if let Some(first) = values.first_mut() {
        *first = Value::Null;
    }
    if let Some(last) = values.last_mut() {
        *last = Value::Null;
    }
    values
}

/// So many numbers that are the least and the greatest of 64 bits in turn.
fn far_ends(alloc: Global, len: u32) -> Result<Vec<Value>, AllocError> {
    let mut values = Vec::new(alloc);
    for i in 0..len {
        let number = if i % 2 == 0 { i64::MIN } else { i64::MAX };
        values.push(Value::Number(i128::from(number)))?;
    }
    Ok(values)
}

/// Whether values are read back at the ends of vectors and of the list, and the vectors that begin and end there.
fn ends_are_read_back<E: Encoded>(
    alloc: Global,
    encoded: &E,
    values: &[Value],
) -> Result<bool, AllocError> {
    let mut same = encoded.len() == values.len();
    for i in [0, 1, 1_022, 1_023, 1_024, 1_025, 65_533, 65_534, 65_535] {
        if i < values.len() {
            same = same && cmp_lent(&encoded.value_at(i), &values[i].lend()).is_eq();
        }
    }
    let mut decoded = Decoded::new(alloc)?;
    for start in [0, 1_023, 1_024, 64_512, 65_535, 65_536] {
        encoded.decode_into(start, &mut decoded);
        same = same && are_decoded(&decoded, values, start);
    }
    Ok(same && encoded.value_at(values.len()).is_null())
}

/// Whether offsets are made of numbers and read back. There are none where all values are NULL.
fn are_offsets(alloc: Global, values: &[Value]) -> Result<bool, AllocError> {
    match Packed::of(alloc, &lent(alloc, values)?)? {
        Some(packed) => ends_are_read_back(alloc, &packed, values),
        None => Ok(values.len() < 3),
    }
}

/// The same of steps.
fn are_steps(alloc: Global, values: &[Value]) -> Result<bool, AllocError> {
    match Deltas::of(alloc, &lent(alloc, values)?)? {
        Some(deltas) => ends_are_read_back(alloc, &deltas, values),
        None => Ok(values.len() < 3),
    }
}

/// The same of a dictionary.
fn is_dictionary(alloc: Global, values: &[Value]) -> Result<bool, AllocError> {
    match Dict::of(alloc, &lent(alloc, values)?, 300)? {
        Some(dict) => ends_are_read_back(alloc, &dict, values),
        None => Ok(values.len() < 3),
    }
}

fn are_plain(alloc: Global, values: &[Value]) -> Result<bool, AllocError> {
    let plain = Plain::of(alloc, &lent(alloc, values)?)?;
    ends_are_read_back(alloc, &plain, values)
}

fn are_runs(alloc: Global, values: &[Value]) -> Result<bool, AllocError> {
    let runs = Runs::of(alloc, &lent(alloc, values)?)?;
    ends_are_read_back(alloc, &runs, values)
}

/// Whether so many numbers between two NULLs are read back from each form of numbers.
fn are_numbers(alloc: Global, len: u32) -> Result<bool, AllocError> {
    let close = with_null_ends(numbers(alloc, -70_000, 3, len)?);
    let close_ones = are_offsets(alloc, &close)? && are_steps(alloc, &close)?;
    let far = with_null_ends(far_ends(alloc, len)?);
    let far_ones = are_offsets(alloc, &far)? && are_steps(alloc, &far)?;
    Ok(close_ones && far_ones && are_plain(alloc, &far)?)
}

/// The same of texts.
fn are_texts(alloc: Global, len: u32) -> Result<bool, AllocError> {
    let values = with_null_ends(texts(alloc, 300, len)?);
    Ok(is_dictionary(alloc, &values)? && are_plain(alloc, &values)?)
}

/// The same of values that stand still.
fn are_still(alloc: Global, len: u32) -> Result<bool, AllocError> {
    let values = with_null_ends(equal_numbers(alloc, 7, len)?);
    are_runs(alloc, &values)
}

#[test]
fn values_are_read_back_at_the_ends_of_vectors_and_segments(rt: HostRuntime) -> Result<(), Fail> {
    for len in LENGTHS {
        assert!(rt; are_numbers(rt.alloc(), len)?, "{len} numbers");
        assert!(rt; are_texts(rt.alloc(), len)?, "{len} texts");
        assert!(rt; are_still(rt.alloc(), len)?, "{len} that stand still");
    }
    Ok(())
}
