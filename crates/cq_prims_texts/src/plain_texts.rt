//! The texts of places in one form, so that no loop asks which.
ghost use Rattle.std.specs.Prelude.{[], ◌<◌, ◌≡◌, ◌≤◌, length, replicate, slice_index_or, List, ℕ};
ghost use Rattle.cq_prims_texts.specs.Bytes.{entry_bytes, run_bytes};
ghost use Rattle.cq_vectors_stored.specs.Columns.{texts_of};
ghost use Rattle.cq_vectors_stored.specs.LentColumns.{AreCodes, IsPart};
ghost use Rattle.cq_vectors_stored.specs.Offsets.{offsets_in};

use cq_vectors_masks::Plane;
use cq_vectors_stored::{Offsets, TextRun};

/// A text in each place, which contracts see as its bytes.
pub(crate) trait PlainTexts {
    ghost texts: { Self → List (List ℕ) };

    fn at(&self, i: usize) -> &str
        requires { i < length (texts self.now) }
        ensures { result.now ≡ slice_index_or (texts self.now) i [] };
}

#[derive(Drop)]
pub(crate) struct TextColumn<'a> {
    pub(crate) texts: &'a [&'a str],
}

impl PlainTexts for TextColumn<'_> {
    ghost texts = { λ c. texts_of c.texts.now };

    fn at(&self, i: usize) -> &str {
        let texts = self.texts;
        texts[i]
    }
}

/// One text in each of so many places.
#[derive(Drop)]
pub(crate) struct OneText<'a> {
    pub(crate) text: &'a str,
    pub(crate) len: usize,
}

impl PlainTexts for OneText<'_> {
    ghost texts = { λ o. replicate o.len o.text.now };

    fn at(&self, _: usize) -> &str {
        self.text
    }
}

/// Texts of a run from one on, and no bytes where NULL stands.
#[derive(Drop)]
pub(crate) struct RunColumn<'a> {
    pub(crate) texts: &'a TextRun,
    pub(crate) start: usize,
    pub(crate) nulls: &'a Plane,
    ghost part: { IsPart texts.now start (length nulls.now) },
    ghost few: { length nulls.now ≤ 1024 },
}

impl PlainTexts for RunColumn<'_> {
    ghost texts = { λ r. run_bytes r.texts.now r.start r.nulls.now };

    fn at(&self, i: usize) -> &str {
        if self.nulls.get(i) {
            ""
        } else {
            self.texts.get(self.start + i)
        }
    }
}

/// The entries that codes name, and no bytes where NULL stands.
#[derive(Drop)]
pub(crate) struct CodedTexts<'a> {
    pub(crate) entries: &'a TextRun,
    pub(crate) codes: Offsets<'a>,
    pub(crate) nulls: &'a Plane,
    ghost known: { AreCodes entries.now (offsets_in codes) },
    ghost same: { length nulls.now ≡ length (offsets_in codes) },
    ghost few: { length nulls.now ≤ 1024 },
}

impl PlainTexts for CodedTexts<'_> {
    ghost texts = { λ c. entry_bytes c.entries.now (offsets_in c.codes) c.nulls.now };

    fn at(&self, i: usize) -> &str {
        if self.nulls.get(i) {
            ""
        } else {
            self.entries.get(self.codes.at(i) as usize)
        }
    }
}
