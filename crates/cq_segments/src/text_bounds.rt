//! The bounds of a column of texts, none of which is NULL.
//!
//! Where the column is kept by its different texts, they are those of these few.
ghost use Rattle.std.specs.Prelude.{IfOk, false, ◌≡◌};
ghost use Rattle.cq_encodings.specs.AnyEncoded.{encoded_values};
ghost use Rattle.cq_encodings.specs.Texts.{text_values};
ghost use Rattle.cq_model.specs.Group.{higher, lower};
ghost use Rattle.cq_encodings_numbers.specs.Bounds.{AreBounds};
ghost use Rattle.cq_segments.specs.Texts.{AreTextEnds, text_ends};
ghost use Rattle.cq_values.specs.declared.value.Value.TheVariants.{Text};
ghost use Rattle.cq_vectors_stored.specs.Columns.{texts_of};

use crate::held_bounds::HeldBounds;
use crate::pieces_texts::lend_behind;
use cq_encodings::AnyEncoded;
use cq_values::Lent;
use std::alloc::{AllocError, Global};

/// The bounds of texts that are encoded.
pub(crate) fn bounds_of_texts(
    alloc: Global,
    form: &AnyEncoded,
    texts: &[&str],
) -> Result<HeldBounds, AllocError>
    requires { encoded_values form.now ≡ text_values (texts_of texts.now) }
    ensures { IfOk result (λ b. AreBounds b.has_null b.ends (text_values (texts_of texts.now))) }
{
    match form {
        AnyEncoded::Dict(dict) => {
            let (entries, _, _) = dict.parts();
            let mut different = Vec::new(alloc);
            lend_behind(&mut different, entries)?;
            held(alloc, ends_of(&different))
        }
        _ => held(alloc, ends_of(texts)),
    }
}

/// Copies of the ends of texts.
fn held(alloc: Global, ends: Option<(&str, &str)>) -> Result<HeldBounds, AllocError>
    ensures { IfOk result (λ b. (b.has_null ≡ false) × (b.ends ≡ text_ends ends.entry)) }
{
    let ends = match ends {
        Some((least, greatest)) => {
            let least = Lent::Text(least).to_value(alloc)?;
            Some((least, Lent::Text(greatest).to_value(alloc)?))
        }
        None => None,
    };
    Ok(HeldBounds {
        has_null: false,
        ends,
    })
}

/// The least and the greatest of texts, where there is one.
fn ends_of<'a>(texts: &[&'a str]) -> Option<(&'a str, &'a str)>
    ensures { AreTextEnds (text_ends result) (texts_of texts.now) }
{
    let first = *texts.first()?;
    let (mut least, mut greatest) = (first, first);
    for i in 1..texts.len() {
        let text = texts[i];
        least = lesser(least, text);
        greatest = greater(greatest, text);
    }
    Some((least, greatest))
}

#[inline(always)]
fn lesser<'a>(a: &'a str, b: &'a str) -> &'a str
    ensures { Text result.now ≡ lower (Text a.now) (Text b.now) }
{
    if a.cmp(b).is_gt() { b } else { a }
}

#[inline(always)]
fn greater<'a>(a: &'a str, b: &'a str) -> &'a str
    ensures { Text result.now ≡ higher (Text a.now) (Text b.now) }
{
    if a.cmp(b).is_gt() { a } else { b }
}
