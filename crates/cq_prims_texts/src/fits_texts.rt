//! Whether a text of a column of texts fits a pattern.
ghost use Rattle.cq_prims_like.specs.Patterns.{IsFrontOf};
ghost use Rattle.cq_prims_texts.specs.Fits.{column_answers, fits_at};
ghost use Rattle.cq_vectors_stored.specs.Columns.{texts_of};
ghost use Rattle.std.specs.Prelude.{◌+◌, ◌≡◌, ◌≤◌, IfSome, length};

use crate::having_texts::word_by_run;
use cq_prims_like::{Pattern, begins};
use cq_vectors_masks::{PlaceTest, WordTest, answers};

/// Whether the text of a place fits the pattern.
#[derive(Drop)]
pub(crate) struct FitsTexts<'a> {
    pub(crate) texts: &'a [&'a str],
    pub(crate) pattern: &'a Pattern<'a>,
}

impl<'a> PlaceTest for FitsTexts<'a> {
    ghost places = { λ t. length t.texts.now };

    ghost holds = { λ t. fits_at t.pattern.now (texts_of t.texts.now) };

    fn at(&self, i: usize) -> bool {
        let texts = self.texts;
        self.pattern.fits(texts[i])
    }
}

impl<'a> WordTest for FitsTexts<'a> {
    fn word(&self, from: usize) -> u64 {
        if let Some(front) = self.pattern.front() {
            let test = BeginsTexts {
                texts: self.texts,
                pattern: self.pattern,
                front,
            };
            return answers(&test, from, 64);
        }
        match self.word_by_run(from) {
            Some(word) => word,
            None => answers(self, from, 64),
        }
    }
}

impl<'a> FitsTexts<'a> {
    /// The same, if the pattern has a run that is sought in all texts at once.
    fn word_by_run(&self, from: usize) -> Option<u64>
        requires { from + 64 ≤ length self.now.texts.now }
        ensures { IfSome result (λ word. word ≡ column_answers self.now from) }
    {
        let sought = self.pattern.sought()?;
        word_by_run(&sought, &self.texts[from..from + 64])
    }
}

/// The same, where the pattern is a front and `%`.
#[derive(Drop)]
struct BeginsTexts<'a> {
    texts: &'a [&'a str],
    pattern: &'a Pattern<'a>,
    front: &'a str,
    ghost is: { IsFrontOf front.now pattern.now },
}

impl<'a> PlaceTest for BeginsTexts<'a> {
    ghost places = { λ t. length t.texts.now };

    ghost holds = { λ t. fits_at t.pattern.now (texts_of t.texts.now) };

    fn at(&self, i: usize) -> bool {
        let texts = self.texts;
        begins(texts[i], self.front)
    }
}
