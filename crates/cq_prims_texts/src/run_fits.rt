//! Whether the texts of a run fit a pattern.
ghost use Rattle.cq_prims_like.specs.Patterns.{IsFrontOf};
ghost use Rattle.cq_prims_texts.specs.Fits.{GivesAnswers, fits_behind};
ghost use Rattle.cq_vectors_stored.specs.Columns.{texts_of};
ghost use Rattle.cq_vectors_stored.specs.LentColumns.{part_of};
ghost use Rattle.std.specs.Prelude.{length, ◌+◌, ◌≡◌, ◌≤◌};

use cq_prims_like::{Pattern, begins};
use cq_vectors_masks::{PlaceTest, WordTest, answers};
use cq_vectors_stored::TextRun;

/// Whether a text of the run, from one on, fits the pattern.
#[derive(Drop)]
pub(crate) struct RunFits<'a> {
    pub(crate) texts: &'a TextRun,
    pub(crate) start: usize,
    pub(crate) len: usize,
    pub(crate) pattern: &'a Pattern<'a>,
    ghost there: { start + len ≤ length texts.now },
    ghost few: { start + len ≤ 65536 },
}

impl<'a> PlaceTest for RunFits<'a> {
    ghost places = { λ t. t.len };

    ghost holds = { λ t. fits_behind t.pattern.now t.texts.now t.start };

    fn at(&self, i: usize) -> bool {
        self.pattern.fits(self.texts.get(self.start + i))
    }
}

impl<'a> WordTest for RunFits<'a> {
    fn word(&self, from: usize) -> u64 {
        if let Some(front) = self.pattern.front() {
            let fits = self;
            return answers(&RunBegins { fits, front }, from, 64);
        }
        match self.word_by_run(from) {
            Some(word) => word,
            None => answers(self, from, 64),
        }
    }
}

impl<'a> RunFits<'a> {
    /// The same, if the pattern has a run that is sought in all texts at once.
    fn word_by_run(&self, from: usize) -> Option<u64>
        requires { from + 64 ≤ self.now.len }
        ensures { GivesAnswers self.now.pattern.now self.now.texts.now self.now.start from result }
    {
        let sought = self.pattern.sought()?;
        Some(sought.answers(self.texts, self.start + from))
    }
}

/// The same, where the pattern is a front and `%`.
#[derive(Drop)]
struct RunBegins<'a> {
    fits: &'a RunFits<'a>,
    front: &'a str,
    ghost is: { IsFrontOf front.now fits.now.pattern.now },
}

impl<'a> PlaceTest for RunBegins<'a> {
    ghost places = { λ t. t.fits.now.len };

    ghost holds = { λ t. fits_behind t.fits.now.pattern.now t.fits.now.texts.now t.fits.now.start };

    fn at(&self, i: usize) -> bool {
        let fits = self.fits;
        begins(fits.texts.get(fits.start + i), self.front)
    }
}
