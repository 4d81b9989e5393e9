//! Vectors of a whole column at some places, which may lie in any of its parts.
//!
//! What is kept in 8, 16, 32 or 64 bits each is copied as it stands. Other values are read one by one.
ghost use Rattle.std.specs.Prelude.{IfOk, IfSome, length, map, ◌≡◌, ◌≤◌};
ghost use Rattle.cq_encodings.specs.AnyEncoded.{encoded_values};
ghost use Rattle.cq_encodings_vectors.specs.Places.{AreBelow, HoldsThose, values_at};
ghost use Rattle.cq_values.specs.Lent.{owned};

use crate::column_numbers::{packed_at, plain_at};
use crate::column_texts::dict_at;
use crate::narrow::narrowed;
use cq_encodings::{AnyEncoded, Runs};
use cq_encodings_plain::{Encoded, Plain};
use cq_values::Lent;
use cq_vectors::{Form, Vector};
use std::alloc::{AllocError, Global};

/// The values of a whole column at some places.
pub fn column_at<'a>(
    alloc: Global,
    encoded: &'a AnyEncoded,
    places: &[u16],
) -> Result<Vector<'a>, AllocError>
    requires few { length places.now ≤ 1024 }
    requires there { AreBelow (length (encoded_values encoded.now)) places.now }
    ensures { IfOk result (λ v. v ≡ values_at (encoded_values encoded.now) places.now) }
{
    let form = match copied_at(alloc, encoded, places)? {
        Some(form) => form,
        None => narrowed(alloc, lent_at(alloc, encoded, places)?)?,
    };
    Ok(Vector::new(form))
}

/// The values at some places in the form that they are kept in, or None of forms that are read one by one.
fn copied_at<'a>(
    alloc: Global,
    encoded: &'a AnyEncoded,
    places: &[u16],
) -> Result<Option<Form<'a>>, AllocError>
    requires few { length places.now ≤ 1024 }
    requires there { AreBelow (length (encoded_values encoded.now)) places.now }
    ensures { IfOk result (λ found. IfSome found (HoldsThose (encoded_values encoded.now) places.now)) }
{
    match encoded {
        AnyEncoded::Packed(packed) => packed_at(alloc, packed, places),
        AnyEncoded::Dict(dict) => dict_at(alloc, dict, places),
        AnyEncoded::Plain(Plain::Numbers(numbers)) => plain_at(alloc, numbers, places),
        AnyEncoded::Runs(runs) => Ok(run_at(runs, places)),
        _ => Ok(None),
    }
}

/// The value of all places, or None where there is not exactly one run.
fn run_at<'a>(runs: &'a Runs, places: &[u16]) -> Option<Form<'a>>
    requires { AreBelow (length runs.now) places.now }
    ensures { IfSome result (HoldsThose runs.now places.now) }
{
    match runs.one() {
        Some(value) => Some(Form::Constant(value, places.len())),
        None => None,
    }
}

/// The values at some places, each read where it stands.
fn lent_at<'a>(
    alloc: Global,
    encoded: &'a AnyEncoded,
    places: &[u16],
) -> Result<Vec<Lent<'a>>, AllocError>
    ensures { IfOk result (λ l. map owned l.items ≡ values_at (encoded_values encoded.now) places.now) }
{
    let mut lent: Vec<Lent<'a>> = Vec::new(alloc);
    lent.reserve(places.len())?;
    for place in places {
        lent.push_reserved(encoded.value_at(usize::from(*place)));
    }
    Ok(lent)
}
