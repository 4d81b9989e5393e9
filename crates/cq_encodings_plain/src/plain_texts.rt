//! Texts that are different.
ghost use Rattle.std.specs.Prelude.{[], IfOk, IfSome, length, map, true, ◌≡◌};
ghost use Rattle.std.specs.Simd.Lanes.{zip2};
ghost use Rattle.cq_encodings_plain.specs.Nulls.{NothingWhere};
ghost use Rattle.cq_encodings_plain.specs.Parts.{AreParts, Makes};
ghost use Rattle.cq_values.specs.Lent.{owned};
ghost use Rattle.cq_values.specs.Value.{is_null};
ghost use Rattle.cq_vectors_stored.specs.Columns.{text_unless};

use crate::encoded::Encoded;
use crate::nulls::Nulls;
use cq_values::Lent;
use cq_vectors_stored::TextRun;
use std::alloc::{AllocError, Global};
use std::marker::Model;

/// Texts one behind the other, and flags where NULL stands: there the text is empty.
#[derive(Drop)]
pub struct PlainTexts {
    texts: TextRun,
    nulls: Nulls,
}

impl Model for PlainTexts {
    ghost use Rattle.std.specs.Prelude.{List, [], length, ◌≡◌};
    ghost use Rattle.std.specs.Simd.Lanes.{zip2};
    ghost use Rattle.cq_encodings_plain.specs.Nulls.{NothingWhere};
    ghost use Rattle.cq_values.specs.declared.value.Value.{Value as Datum};
    ghost use Rattle.cq_vectors_stored.specs.Columns.{text_unless};

    ghost Value = { List Datum };

    ghost view = { λ p. zip2 text_unless p.texts p.nulls };

    ghost invariant = { λ p. (length p.nulls ≡ length p.texts) × NothingWhere [] p.nulls p.texts };
}

impl PlainTexts {
    /// None where one of the values is neither a text nor NULL, or they do not fit one run.
    pub fn of(alloc: Global, values: &[Lent<'_>]) -> Result<Option<PlainTexts>, AllocError>
        ensures { IfOk result (λ found. IfSome found (λ plain. plain ≡ map owned values.now)) }
    {
        let Some(texts) = texts_of(alloc, values)? else {
            return Ok(None);
        };
        let nulls = Nulls::of(alloc, values)?;
        Ok(Some(PlainTexts { texts, nulls }))
    }

    /// Texts with their flags, of which those at NULL are empty.
    pub fn of_parts(texts: TextRun, nulls: Nulls) -> PlainTexts
        requires long { length nulls ≡ length texts }
        requires clear { NothingWhere [] nulls texts }
        ensures { result ≡ zip2 text_unless texts nulls }
    {
        PlainTexts { texts, nulls }
    }

    /// The texts and the flags, for loops: an empty text where NULL stands.
    pub fn parts(&self) -> (&TextRun, &Nulls)
        ensures whole { self.now ≡ zip2 text_unless result.0.now result.1.now }
        ensures long { length result.1.now ≡ length result.0.now }
        ensures clear { NothingWhere [] result.1.now result.0.now }
    {
        (&self.texts, &self.nulls)
    }
}

impl Encoded for PlainTexts {
    ghost values = { λ p. p };

    fn len(&self) -> usize {
        self.texts.len()
    }

    fn value_at(&self, place: usize) -> Lent<'_> {
        if place >= self.texts.len() || self.nulls.at(place) {
            return Lent::Null;
        }
        Lent::Text(self.texts.get(place))
    }
}

fn texts_of(alloc: Global, values: &[Lent<'_>]) -> Result<Option<TextRun>, AllocError>
    ensures { IfOk result (λ found. IfSome found (λ texts. AreParts text_unless [] texts values.now)) }
{
    let mut texts = TextRun::new(alloc);
    for value in values {
        match text_of(value) {
            Some(text) if texts.has_room(text) => texts.push(text)?,
            _ => return Ok(None),
        }
    }
    Ok(Some(texts))
}

/// The text, or an empty one for NULL. None where the value is a number or a day.
fn text_of<'a>(value: &Lent<'a>) -> Option<&'a str>
    ensures same { IfSome result (λ text. Makes text_unless text.now value.now) }
    ensures empty { IfSome result (λ text. is_null (owned value.now) ≡ true → text.now ≡ []) }
{
    match value {
        Lent::Text(text) => Some(text),
        Lent::Null => Some(""),
        _ => None,
    }
}
