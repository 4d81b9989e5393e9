//! Values that are read one by one, of encodings that have nothing to lend.
ghost use Rattle.std.specs.Prelude.{IfOk, length, map, slice_index_or, ◌*◌, ◌<◌, ◌≡◌, ◌≤◌};
ghost use Rattle.cq_encodings.specs.AnyEncoded.{encoded_values};
ghost use Rattle.cq_encodings_vectors.specs.Parts.{part_of, placed};
ghost use Rattle.cq_encodings_vectors.specs.Places.{AreBelow};
ghost use Rattle.cq_values.specs.Lent.{owned};
ghost use Rattle.cq_values.specs.declared.value.Value.TheVariants.{Null};
ghost use Rattle.cq_vectors.specs.Form.{values_in};

use crate::narrow::{narrowed, narrowed_copy};
use crate::places::copies_at;
use cq_encodings::AnyEncoded;
use cq_encodings_plain::{Decoded, Encoded};
use cq_values::Lent;
use cq_vectors::Form;
use std::alloc::{AllocError, Global};

/// The values of a part, in the narrowest form that holds them.
pub(crate) fn read_part<'a>(
    alloc: Global,
    encoded: &'a AnyEncoded,
    k: usize,
) -> Result<Form<'a>, AllocError>
    requires { 1024 * k ≤ length (encoded_values encoded.now) }
    ensures { IfOk result (λ form. values_in form ≡ part_of k (encoded_values encoded.now)) }
{
    let decoded = decoded_part(alloc, encoded, k)?;
    narrowed_copy(alloc, decoded.values())
}

/// Those of them at some places.
pub(crate) fn read_places<'a>(
    alloc: Global,
    encoded: &'a AnyEncoded,
    k: usize,
    places: &[u16],
) -> Result<Form<'a>, AllocError>
    requires part { 1024 * k ≤ length (encoded_values encoded.now) }
    requires few { length places.now ≤ 1024 }
    requires there { AreBelow (length (part_of k (encoded_values encoded.now))) places.now }
    ensures { IfOk result (λ f. values_in f ≡ placed encoded.now k places.now) }
{
    match encoded {
        AnyEncoded::Runs(_) | AnyEncoded::Deltas(_) => {
            narrowed(alloc, decoded_places(alloc, encoded, k, places)?)
        }
        _ => narrowed(alloc, lent_places(alloc, encoded, k, places)?),
    }
}

fn decoded_part<'a>(
    alloc: Global,
    encoded: &'a AnyEncoded,
    k: usize,
) -> Result<Decoded<'a>, AllocError>
    requires { 1024 * k ≤ length (encoded_values encoded.now) }
    ensures { IfOk result (λ decoded. decoded ≡ part_of k (encoded_values encoded.now)) }
{
    let _len = encoded.len();
    let mut decoded = Decoded::new(alloc)?;
    encoded.decode_into(1024 * k, &mut decoded);
    Ok(decoded)
}

/// The values at some places, where to read one is to walk over those before it.
fn decoded_places<'a>(
    alloc: Global,
    encoded: &'a AnyEncoded,
    k: usize,
    places: &[u16],
) -> Result<Vec<Lent<'a>>, AllocError>
    requires part { 1024 * k ≤ length (encoded_values encoded.now) }
    requires there { AreBelow (length (part_of k (encoded_values encoded.now))) places.now }
    ensures { IfOk result (λ l. map owned l.items ≡ placed encoded.now k places.now) }
{
    let decoded = decoded_part(alloc, encoded, k)?;
    let found = copies_at(alloc, decoded.values(), places)?;
    Ok(found)
}

/// The values at some places, each read where it stands.
fn lent_places<'a>(
    alloc: Global,
    encoded: &'a AnyEncoded,
    k: usize,
    places: &[u16],
) -> Result<Vec<Lent<'a>>, AllocError>
    requires part { 1024 * k ≤ length (encoded_values encoded.now) }
    requires there { AreBelow (length (part_of k (encoded_values encoded.now))) places.now }
    ensures { IfOk result (λ l. map owned l.items ≡ placed encoded.now k places.now) }
{
    let mut lent: Vec<Lent<'a>> = Vec::new(alloc);
    lent.reserve(places.len())?;
    for place in places {
        lent.push_reserved(lent_place(encoded, k, usize::from(*place)));
    }
    Ok(lent)
}

/// The value at a place of a part.
fn lent_place<'a>(encoded: &'a AnyEncoded, k: usize, place: usize) -> Lent<'a>
    requires part { 1024 * k ≤ length (encoded_values encoded.now) }
    requires there { place < length (part_of k (encoded_values encoded.now)) }
    ensures { owned result ≡ slice_index_or (part_of k (encoded_values encoded.now)) place Null }
{
    let _len = encoded.len();
    encoded.value_at(1024 * k + place)
}
