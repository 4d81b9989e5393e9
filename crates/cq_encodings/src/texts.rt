//! Which form a column of texts is kept in, none of which is NULL.
ghost use Rattle.std.specs.Prelude.{IfOk, IfSome, map, ◌≡◌};
ghost use Rattle.cq_encodings.specs.AnyEncoded.{encoded_values};
ghost use Rattle.cq_encodings.specs.Texts.{text_values};
ghost use Rattle.cq_values.specs.Lent.{owned};
ghost use Rattle.cq_vectors_stored.specs.Columns.{texts_of};

use crate::any_encoded::AnyEncoded;
use crate::choosing::choose_lent;
use crate::dict::run_of;
use crate::runs::stand_still;
use crate::text_codes::dict_of_texts;
use cq_encodings_plain::{Nulls, Plain, PlainTexts};
use cq_values::Lent;
use std::alloc::{AllocError, Global};

/// Texts in the form that [`choose`](crate::choose) picks for their values, which are lent to it where they stand still
/// or do not fit one run.
pub fn choose_texts(alloc: Global, texts: &[&str]) -> Result<AnyEncoded, AllocError>
    ensures { IfOk result (λ encoded. encoded_values encoded ≡ text_values (texts_of texts.now)) }
{
    if !stand_still(texts, |a, b| a == b) {
        if let Some(dict) = dict_of_texts(alloc, texts, texts.len() / 4)? {
            return Ok(AnyEncoded::Dict(dict));
        }
        if let Some(plain) = plain_of_texts(alloc, texts)? {
            return Ok(AnyEncoded::Plain(Plain::Texts(plain)));
        }
    }
    let lent = lend_texts(alloc, texts)?;
    choose_lent(alloc, &lent)
}

/// The texts one behind the other, or None where they do not fit one run.
fn plain_of_texts(alloc: Global, texts: &[&str]) -> Result<Option<PlainTexts>, AllocError>
    ensures { IfOk result (λ found. IfSome found (λ plain. plain ≡ text_values (texts_of texts.now))) }
{
    let Some(run) = run_of(alloc, texts)? else {
        return Ok(None);
    };
    let nulls = Nulls::clear(alloc, run.len())?;
    Ok(Some(PlainTexts::of_parts(run, nulls)))
}

fn lend_texts<'a>(alloc: Global, texts: &[&'a str]) -> Result<Vec<Lent<'a>>, AllocError>
    ensures { IfOk result (λ lent. map owned lent.items ≡ text_values (texts_of texts.now)) }
{
    let mut lent: Vec<Lent<'a>> = Vec::new(alloc);
    lent.reserve(texts.len())?;
    for text in texts {
        lent.push_reserved(Lent::Text(text));
    }
    Ok(lent)
}
