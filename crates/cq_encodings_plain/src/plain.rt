//! Values as they are.
ghost use Rattle.std.specs.Prelude.{IfOk, map, slice_index_or, ◌≡◌};
ghost use Rattle.cq_encodings_plain.specs.Plain.{plain_values};
ghost use Rattle.cq_values.specs.Lent.{owned};
ghost use Rattle.cq_values.specs.declared.value.Value.TheVariants.{Null};

use crate::decoded::Decoded;
use crate::encoded::Encoded;
use crate::plain_numbers::PlainNumbers;
use crate::plain_texts::PlainTexts;
use cq_values::{Lent, Value};
use std::alloc::{AllocError, Global};

/// Values of one kind side by side, or values of several, each in a place of its own.
#[derive(Drop)]
pub enum Plain {
    Numbers(PlainNumbers),
    Texts(PlainTexts),
    Values(Vec<Value>),
}

impl Plain {
    /// An error comes where there is no memory.
    pub fn of(alloc: Global, values: &[Lent<'_>]) -> Result<Plain, AllocError>
        ensures { IfOk result (λ plain. plain_values plain ≡ map owned values.now) }
    {
        if let Some(numbers) = PlainNumbers::of(alloc, values)? {
            return Ok(Plain::Numbers(numbers));
        }
        match PlainTexts::of(alloc, values)? {
            Some(texts) => Ok(Plain::Texts(texts)),
            None => Ok(Plain::Values(copies_of(alloc, values)?)),
        }
    }
}

impl Encoded for Plain {
    ghost values = { plain_values };

    fn len(&self) -> usize {
        match self {
            Plain::Numbers(numbers) => numbers.len(),
            Plain::Texts(texts) => texts.len(),
            Plain::Values(values) => values.len(),
        }
    }

    fn value_at(&self, place: usize) -> Lent<'_> {
        match self {
            Plain::Numbers(numbers) => numbers.value_at(place),
            Plain::Texts(texts) => texts.value_at(place),
            Plain::Values(values) => lend_at(values, place),
        }
    }
}

fn copies_of(alloc: Global, values: &[Lent<'_>]) -> Result<Vec<Value>, AllocError>
    ensures { IfOk result (λ copies. copies.items ≡ map owned values.now) }
{
    let mut copies = Vec::new(alloc);
    copies.reserve(values.len())?;
    for value in values {
        copies.push(value.to_value(alloc)?)?;
    }
    Ok(copies)
}

fn lend_at(values: &[Value], place: usize) -> Lent<'_>
    ensures { owned result ≡ slice_index_or values.now place Null }
{
    match values.get(place) {
        Some(value) => value.lend(),
        None => Lent::Null,
    }
}
