//! Texts that stand one behind the other.
//!
//! A run is made empty and grows by `push`; a text in it does not change. What is kept of each text is where it ends.
//! `get` lends a text where it stands, and `bytes_of` the bytes of many; neither takes memory. `push` asks for room for
//! one text, and a run that is full takes none: `has_room` tells. To contracts a run is the list of its texts, each as
//! its bytes.
ghost use Rattle.std.specs.List.{All, concat};
ghost use Rattle.std.specs.Prelude.{IsTrue, OnErr, OnOk, [], ◌++◌, ◌∷◌, length, slice_index_or, ◌+◌, ◌<◌, ◌^◌, ◌≡◌, ◌≤◌, ◌↔◌, take};
ghost use Rattle.std.specs.Str.{IsUtf8};
ghost use Rattle.cq_vectors_stored.specs.LentColumns.{part_of};
ghost use Rattle.cq_vectors_stored.specs.TextRun.{HasRoom};

use std::alloc::{AllocError, Global};
use std::marker::Model;

/// How many texts a run can hold.
const MOST_TEXTS: usize = 65_536;

/// At most 65,536 texts in one string, with the place where each ends.
#[derive(Drop)]
pub struct TextRun {
    string: String,
    ends: Vec<u32>,
}

impl Model for TextRun {
    ghost use Rattle.std.specs.Prelude.{List, string_bytes, ℕ};
    ghost use Rattle.cq_vectors_stored.specs.TextRun.{IsLaid, cut};

    ghost Value = { List (List ℕ) };

    ghost view = { λ r. cut (string_bytes r.string) 0 r.ends.items };

    ghost invariant = { λ r. IsLaid (string_bytes r.string) r.ends.items (cut (string_bytes r.string) 0 r.ends.items) };
}

impl TextRun {
    /// Takes no memory.
    pub fn new(alloc: Global) -> TextRun
        ensures { result ≡ [] }
    {
        TextRun {
            string: String::new(alloc),
            ends: Vec::new(alloc),
        }
    }

    pub fn len(&self) -> usize
        ensures len { result ≡ length self.now }
        ensures few { result ≤ 65536 }
    {
        self.ends.len()
    }

    /// Whether the run can take the text: it holds 65,536 texts, and less than 2 ^ 32 bytes.
    pub fn has_room(&self, text: &str) -> bool
        ensures { IsTrue result ↔ HasRoom self.now text.now }
    {
        let left = u32::MAX as usize - self.string.len();
        self.ends.len() < MOST_TEXTS && text.len() <= left
    }

    pub fn push(&mut self, text: &str) -> Result<(), AllocError>
        requires { HasRoom self.old text.now }
        ensures ok { OnOk result (self.new ≡ self.old ++ text.now ∷ []) }
        ensures err { OnErr result (self.new ≡ self.old) }
    {
        self.ends.reserve(1)?;
        self.string.push_str(text)?;
        self.ends.push_reserved(self.string.len() as u32);
        Ok(())
    }

    pub fn get(&self, i: usize) -> &str
        requires { i < length self.now }
        ensures { result.now ≡ slice_index_or self.now i [] }
    {
        let start = self.start(i);
        &self.string.as_str()[start..self.ends[i] as usize]
    }

    /// The bytes of so many texts from one on, as they stand.
    pub fn bytes_of(&self, start: usize, len: usize) -> &[u8]
        requires { start + len ≤ length self.now }
        ensures bytes { result.now ≡ concat (part_of self.now start len) }
        ensures short { length result.now < 2 ^ 32 }
        ensures utf8 { All IsUtf8 self.now }
    {
        let bytes = self.string.as_bytes();
        let (from, to) = (self.start(start), self.start(start + len));
        &bytes[from..to]
    }

    /// Where a text begins, and where all end for one past the last.
    pub fn start(&self, i: usize) -> usize
        requires { i ≤ length self.now }
        ensures { result ≡ length (concat (take i self.now)) }
    {
        if i == 0 { 0 } else { self.ends[i - 1] as usize }
    }

    /// Where a text ends.
    pub fn end(&self, i: usize) -> usize
        requires { i < length self.now }
        ensures { result ≡ length (concat (take (i + 1) self.now)) }
    {
        self.ends[i] as usize
    }
}
