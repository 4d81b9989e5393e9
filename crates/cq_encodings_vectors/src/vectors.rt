//! Vectors of a column that is kept in some form.
//!
//! `vector_of` gives 1,024 values where they stand, and `vector_at` those of some places among them.
ghost use Rattle.std.specs.Prelude.{IfOk, IfSome, length, ◌*◌, ◌≡◌, ◌≤◌};
ghost use Rattle.cq_encodings.specs.AnyEncoded.{encoded_values};
ghost use Rattle.cq_encodings_vectors.specs.Places.{AreBelow, values_at};
ghost use Rattle.cq_encodings_vectors.specs.Parts.{part_of, placed};
ghost use Rattle.cq_vectors.specs.Form.{values_in};

use crate::at_places::form_at;
use crate::numbers::{lend_numbers, lend_packed};
use crate::runs::lend_run;
use crate::texts::{lend_dict, lend_texts};
use crate::values::{read_part, read_places};
use cq_encodings::AnyEncoded;
use cq_encodings_plain::Plain;
use cq_vectors::{Form, Vector};
use std::alloc::{AllocError, Global};

/// The values from 1,024 * k on, 1,024 of them or as many as are left.
pub fn vector_of<'a>(
    alloc: Global,
    encoded: &'a AnyEncoded,
    k: usize,
) -> Result<Vector<'a>, AllocError>
    requires { 1024 * k ≤ length (encoded_values encoded.now) }
    ensures { IfOk result (λ vector. vector ≡ part_of k (encoded_values encoded.now)) }
{
    let form = part_form(alloc, encoded, k)?;
    Ok(Vector::new(form))
}

/// Those of them at some places.
pub fn vector_at<'a>(
    alloc: Global,
    encoded: &'a AnyEncoded,
    k: usize,
    places: &[u16],
) -> Result<Vector<'a>, AllocError>
    requires part { 1024 * k ≤ length (encoded_values encoded.now) }
    requires few { length places.now ≤ 1024 }
    requires there { AreBelow (length (part_of k (encoded_values encoded.now))) places.now }
    ensures { IfOk result (λ v. v ≡ values_at (part_of k (encoded_values encoded.now)) places.now) }
{
    let form = places_form(alloc, encoded, k, places)?;
    Ok(Vector::new(form))
}

/// The values of a part where they stand, or else in a form of their own.
fn part_form<'a>(alloc: Global, encoded: &'a AnyEncoded, k: usize) -> Result<Form<'a>, AllocError>
    requires { 1024 * k ≤ length (encoded_values encoded.now) }
    ensures { IfOk result (λ form. values_in form ≡ part_of k (encoded_values encoded.now)) }
{
    match lend_part(encoded, k) {
        Some(form) => Ok(form),
        None => read_part(alloc, encoded, k),
    }
}

/// The values of a part where they stand, or None where the encoding has none to lend.
fn lend_part(encoded: &AnyEncoded, k: usize) -> Option<Form<'_>>
    requires { 1024 * k ≤ length (encoded_values encoded.now) }
    ensures { IfSome result (λ form. values_in form ≡ part_of k (encoded_values encoded.now)) }
{
    match encoded {
        AnyEncoded::Plain(Plain::Numbers(numbers)) => lend_numbers(numbers, k),
        AnyEncoded::Plain(Plain::Texts(texts)) => lend_texts(texts, k),
        AnyEncoded::Dict(dict) => lend_dict(dict, k),
        AnyEncoded::Packed(packed) => lend_packed(packed, k),
        AnyEncoded::Runs(runs) => lend_run(runs, k),
        _ => None,
    }
}

/// Those of some places, copied from where they stand or else read one by one.
fn places_form<'a>(
    alloc: Global,
    encoded: &'a AnyEncoded,
    k: usize,
    places: &[u16],
) -> Result<Form<'a>, AllocError>
    requires part { 1024 * k ≤ length (encoded_values encoded.now) }
    requires few { length places.now ≤ 1024 }
    requires there { AreBelow (length (part_of k (encoded_values encoded.now))) places.now }
    ensures { IfOk result (λ form. values_in form ≡ placed encoded.now k places.now) }
{
    let Some(lent) = lend_part(encoded, k) else {
        return read_places(alloc, encoded, k, places);
    };
    match form_at(alloc, &lent, places)? {
        Some(form) => Ok(form),
        None => read_places(alloc, encoded, k, places),
    }
}
