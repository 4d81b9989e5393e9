//! The numbers of texts.
//!
//! A map has the number of each text. Where in the map a text stands is noted in a list of hints, at a place that its
//! length and its ends tell: a text that stands where its hint says is compared, and only the others are hashed.
ghost use Rattle.std.specs.Prelude.{IfSome, List, None, OnErr, OnOk, Some, ℕ, ◌<◌, ◌≡◌};
ghost use Rattle.cq_hash_keys_values.specs.Texts.{AgreeOn, PutsText, number_of};

use indexmap::IndexMap;
use std::alloc::{AllocError, Global};

/// How many hints there are, once a text was put in.
const HINTS: usize = 4_096;

/// A number for each of some texts. A hint is a place in the map.
#[derive(Drop)]
pub(crate) struct TextNumbers {
    numbers: IndexMap<String, usize>,
    hints: Vec<u32>,
}

impl TextNumbers {
    /// Takes no memory.
    pub(crate) fn new(alloc: Global) -> TextNumbers
        ensures { (text : List ℕ) → number_of result text ≡ None }
    {
        TextNumbers {
            numbers: IndexMap::new(alloc),
            hints: Vec::new(alloc),
        }
    }

    pub(crate) fn get(&self, text: &str) -> Option<usize>
        ensures { result ≡ number_of self.now text.now }
    {
        let hint = match self.hints.as_slice().get(hint_of(text)) {
            Some(hint) => *hint as usize,
            None => 0,
        };
        match self.at(hint, text) {
            Some(number) => Some(number),
            None => self.numbers.get(text).copied(),
        }
    }

    /// The number of a text that stands at a place of the map.
    fn at(&self, place: usize, text: &str) -> Option<usize>
        ensures { IfSome result (λ number. number_of self.now text.now ≡ Some number) }
    {
        let (key, number) = self.numbers.get_index(place)?;
        if key.as_str() == text {
            Some(*number)
        } else {
            None
        }
    }

    /// Gives a number to a text.
    pub(crate) fn put(&mut self, alloc: Global, text: &str, number: usize) -> Result<(), AllocError>
        ensures ok { OnOk result (PutsText self.old text.now number self.new) }
        ensures err { OnErr result (AgreeOn self.old self.new) }
    {
        let copy = String::from_str(alloc, text)?;
        let place = self.numbers.len();
        self.hints.resize(HINTS, 0)?;
        self.numbers.insert(copy, number)?;
        set_hint(self.hints.as_mut_slice(), text, place);
        Ok(())
    }
}

/// Notes where a text stands.
fn set_hint(hints: &mut [u32], text: &str, place: usize) {
    if let Some(hint) = hints.get_mut(hint_of(text)) {
        *hint = u32::try_from(place).unwrap_or(0);
    }
}

/// Where the hint of a text stands, by its length, its first eight bytes and its last ones.
#[inline(always)]
fn hint_of(text: &str) -> usize {
    let bytes = text.as_bytes();
    let ends = match (bytes.first_chunk::<8>(), bytes.last_chunk::<8>()) {
        (Some(first), Some(last)) => {
            u64::from_le_bytes(*first) ^ u64::from_le_bytes(*last).rotate_left(29)
        }
        _ => few_bytes(bytes),
    };
    let mixed = (ends ^ bytes.len() as u64).wrapping_mul(0x9e37_79b9_7f4a_7c15);
    (mixed >> 52) as usize
}

/// The first byte of a short text, the one in its middle and the last one.
#[inline(always)]
fn few_bytes(bytes: &[u8]) -> u64 {
    match bytes.last() {
        Some(last) => {
            let middle = bytes[bytes.len() / 2];
            u64::from(bytes[0]) << 16 | u64::from(middle) << 8 | u64::from(*last)
        }
        None => 0,
    }
}
