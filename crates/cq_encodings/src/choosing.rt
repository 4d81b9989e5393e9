//! Which form a column is kept in.
//!
//! Widths of whole bytes alone are chosen: a width between takes longer to read than the memory is worth.
ghost use Rattle.std.specs.Prelude.{IfOk, map, ◌≡◌};
ghost use Rattle.cq_encodings.specs.AnyEncoded.{encoded_values};
ghost use Rattle.cq_values.specs.Lent.{owned};

use crate::any_encoded::AnyEncoded;
use crate::dict::Dict;
use crate::rising::rise_slowly;
use crate::runs::{Runs, are_equal, stand_still};
use cq_encodings_numbers::{Deltas, Packed};
use cq_encodings_plain::{Kind, Plain, kind_of};
use cq_values::{Lent, Value};
use std::alloc::{AllocError, Global};

/// The values in the form that takes least memory and is read fast. An error comes where there is no memory for it.
pub fn choose(alloc: Global, values: &[Value]) -> Result<AnyEncoded, AllocError>
    ensures { IfOk result (λ encoded. encoded_values encoded ≡ values.now) }
{
    let mut lent = Vec::new(alloc);
    lent.reserve(values.len())?;
    for value in values {
        lent.push_reserved(value.lend());
    }
    choose_lent(alloc, &lent)
}

/// The same of values that are lent: no text is copied but into the form that is chosen.
pub fn choose_lent(alloc: Global, values: &[Lent<'_>]) -> Result<AnyEncoded, AllocError>
    ensures { IfOk result (λ encoded. encoded_values encoded ≡ map owned values.now) }
{
    if stand_still(values, are_equal) {
        return Ok(AnyEncoded::Runs(Runs::of(alloc, values)?));
    }
    match kind_of(values) {
        Some(kind) => choose_for_numbers(alloc, values, kind),
        None => choose_for_texts(alloc, values),
    }
}

fn choose_for_numbers(
    alloc: Global,
    values: &[Lent<'_>],
    kind: Kind,
) -> Result<AnyEncoded, AllocError>
    ensures { IfOk result (λ encoded. encoded_values encoded ≡ map owned values.now) }
{
    if let Some(packed) = Packed::of_close(alloc, kind, values)? {
        return Ok(AnyEncoded::Packed(packed));
    }
    if rise_slowly(kind, values) {
        if let Some(deltas) = Deltas::of(alloc, values)? {
            return Ok(AnyEncoded::Deltas(deltas));
        }
    }
    Ok(AnyEncoded::Plain(Plain::of(alloc, values)?))
}

fn choose_for_texts(alloc: Global, values: &[Lent<'_>]) -> Result<AnyEncoded, AllocError>
    ensures { IfOk result (λ encoded. encoded_values encoded ≡ map owned values.now) }
{
    match Dict::of(alloc, values, values.len() / 4)? {
        Some(dict) => Ok(AnyEncoded::Dict(dict)),
        None => Ok(AnyEncoded::Plain(Plain::of(alloc, values)?)),
    }
}
