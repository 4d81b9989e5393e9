//! Texts that are known by their numbers.
//!
//! A set has the texts in the order of their first places. Where in it a text stands is noted in a list of hints, at a
//! place that its length and its ends tell: a text that stands where its hint says is compared, and only the others are
//! hashed.
ghost use Rattle.std.specs.Bool.{OnTrue};
ghost use Rattle.std.specs.Prelude.{[], IfOk, OnOk, length, ◌<◌, ◌∷◌, ◌≡◌};
ghost use Rattle.cq_encodings.specs.Dict.{HasText, IsNumbered};
ghost use Rattle.cq_vectors_stored.specs.Columns.{texts_of};

use indexmap::IndexSet;
use std::alloc::{AllocError, Global};
use std::marker::Model;

/// How many hints there are.
const HINTS: usize = 4_096;

/// Different texts. A hint is the number of a text.
#[derive(Drop)]
pub(crate) struct KnownTexts<'a> {
    texts: IndexSet<&'a str>,
    hints: Vec<u16>,
}

impl<'a> Model for KnownTexts<'a> {
    ghost use Rattle.std.specs.Prelude.{List, ℕ};
    ghost use Rattle.cq_vectors_stored.specs.Columns.{texts_of};

    ghost Value = { List (List ℕ) };

    ghost view = { λ k. texts_of k.texts.keys };
}

impl<'a> KnownTexts<'a> {
    /// One text. An error comes where there is no memory for it and the hints.
    pub(crate) fn new(alloc: Global, first: &'a str) -> Result<KnownTexts<'a>, AllocError>
        ensures { IfOk result (λ known. known ≡ first.now ∷ []) }
    {
        let mut texts = IndexSet::new(alloc);
        texts.insert(first)?;
        let mut hints = Vec::new(alloc);
        hints.resize(HINTS, 0)?;
        Ok(KnownTexts { texts, hints })
    }

    pub(crate) fn len(&self) -> usize
        ensures { result ≡ length self.now }
    {
        self.texts.len()
    }

    /// The texts, for loops.
    pub(crate) fn texts(&self) -> &[&'a str]
        ensures { texts_of result.now ≡ self.now }
    {
        self.texts.as_slice()
    }

    /// The number of a text, which is now one of them.
    pub(crate) fn number_of(&mut self, text: &'a str) -> Result<usize, AllocError>
        ensures { IfOk result (λ number. IsNumbered text.now number self.old self.new) }
    {
        let at = hint_of(text);
        let hint = match self.hints.get(at) {
            Some(hint) => *hint as usize,
            None => 0,
        };
        if has_text(&self.texts, hint, text) {
            return Ok(hint);
        }
        let (number, _) = self.texts.insert_full(text)?;
        set_hint(&mut self.hints, at, number);
        Ok(number)
    }
}

/// Whether the text has the number.
fn has_text(texts: &IndexSet<&str>, number: usize, text: &str) -> bool
    ensures { OnTrue result (HasText (texts_of texts.now.keys) number text.now) }
{
    match texts.get_index(number) {
        Some(known) => *known == text,
        None => false,
    }
}

/// Notes the number of a text.
fn set_hint(hints: &mut [u16], at: usize, number: usize) {
    if let Some(hint) = hints.get_mut(at) {
        *hint = u16::try_from(number).unwrap_or(0);
    }
}

/// Where the hint of a text stands, by its length, its first eight bytes and its last ones.
#[inline(always)]
fn hint_of(text: &str) -> usize {
    let bytes = text.as_bytes();
    let ends = match (bytes.first_chunk::<8>(), bytes.last_chunk::<8>()) {
        (Some(first), Some(last)) => {
            u64::from_le_bytes(*first) ^ u64::from_le_bytes(*last).rotate_left(29)
        }
        _ => few_bytes(bytes),
    };
    let mixed = (ends ^ bytes.len() as u64).wrapping_mul(0x9e37_79b9_7f4a_7c15);
    (mixed >> 52) as usize
}

/// The first byte of a short text, the one in its middle and the last one.
#[inline(always)]
fn few_bytes(bytes: &[u8]) -> u64 {
    match bytes.last() {
        Some(last) => {
            let middle = bytes[bytes.len() / 2];
            u64::from(bytes[0]) << 16 | u64::from(middle) << 8 | u64::from(*last)
        }
        None => 0,
    }
}
