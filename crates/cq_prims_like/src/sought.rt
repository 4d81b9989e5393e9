//! Patterns of which a text has to have a run of bytes.
ghost use Rattle.cq_model.specs.Like.{like};
ghost use Rattle.cq_prims_like.specs.Patterns.{IsFormOf, answers_of};
ghost use Rattle.memchr.specs.Find.{FindsNeedle};
ghost use Rattle.std.specs.Prelude.{◌*◌, ◌+◌, ◌<◌, ◌^◌, ◌∷◌, ◌≡◌, ◌≤◌, IfSome, [], length, slice_index_or};
ghost use Rattle.std.specs.Simd.Lanes.{mask_l};
ghost use Rattle.std.specs.Str.{IsUtf8, chars};

use crate::pattern::PatternForm;
use crate::places::{ends_by, next_from, place_within};
use cq_vectors_stored::TextRun;
use memchr::memmem::Finder;
use std::marker::Model;

/// A pattern with its form, and the run that is sought first.
#[derive(Drop)]
pub struct Sought<'a> {
    pattern: &'a str,
    form: &'a PatternForm<'a>,
    run: &'a Finder<'a>,
}

impl<'a> Model for Sought<'a> {
    ghost use Rattle.std.specs.Prelude.{Some, ◌≡◌};
    ghost use Rattle.std.specs.Str.{IsUtf8};
    ghost use Rattle.cq_prims_like.specs.Patterns.{IsFormOf, PatternByRun, run_of};

    ghost Value = { PatternByRun };

    ghost view = { λ s. record { pattern = s.pattern.now; run = s.run.now } };

    ghost invariant = { λ s. IsUtf8 s.pattern.now × IsFormOf s.form.now s.pattern.now × (run_of s.form.now ≡ Some s.run.now) };
}

impl<'a> Sought<'a> {
    /// The pattern of this form by its run, if there is one.
    pub(crate) fn of(pattern: &'a str, form: &'a PatternForm<'a>) -> Option<Sought<'a>>
        requires { IsFormOf form.now pattern.now }
        ensures { IfSome result (λ sought. sought.pattern ≡ pattern.now) }
    {
        let run = form.run()?;
        Some(Sought { pattern, form, run })
    }

    pub fn run(&self) -> &'a Finder<'a>
        ensures { result.now ≡ self.now.run }
    {
        self.run
    }

    /// Whether the pattern fits the text, where this is the run's first place in it.
    #[inline(always)]
    pub fn fits(&self, text: &str, first: Option<usize>) -> bool
        requires { FindsNeedle text.now self.now.run 0 first }
        ensures { result ≡ like (chars self.now.pattern) (chars text.now) }
    {
        match first {
            Some(first) => self.form.fits_from(self.pattern, text, first),
            None => false,
        }
    }

    /// The answers for 64 texts of a run from one on, the first in the lowest bit.
    ///
    /// The run of bytes is sought in all of them where they stand. A text is only read where it has the bytes.
    pub fn answers(&self, texts: &TextRun, start: usize) -> u64
        requires there { start + 64 ≤ length texts.now }
        requires few { start + 64 ≤ 65536 }
        ensures { result ≡ answers_of self.now.pattern texts.now start }
    {
        let bytes = texts.bytes_of(start, 64);
        let base = texts.start(start);
        let mut word = 0;
        let mut next = self.run.find(bytes);
        for i in 0..64 {
            let end = texts.end(start + i) - base;
            if ends_by(self.run, end, next) {
                let begin = texts.start(start + i) - base;
                let here = next_from(self.run, bytes, begin, next);
                let first = place_within(self.run, begin, end, here);
                word |= flag_bit(self.fits_at(texts, start + i, first), i);
                next = next_from(self.run, bytes, end, here);
            }
        }
        word
    }

    /// Whether the pattern fits a text of a run, where this is the first place of the bytes in it.
    fn fits_at(&self, texts: &TextRun, i: usize, first: Option<usize>) -> bool
        requires there { i < length texts.now }
        requires utf8 { IsUtf8 (slice_index_or texts.now i []) }
        requires found { FindsNeedle (slice_index_or texts.now i []) self.now.run 0 first }
        ensures { result ≡ like (chars self.now.pattern) (chars (slice_index_or texts.now i [])) }
    {
        match first {
            Some(first) => self.form.fits_from(self.pattern, texts.get(i), first),
            None => false,
        }
    }
}

/// The flag as a bit with i bits below it.
fn flag_bit(flag: bool, i: usize) -> u64
    requires { i < 64 }
    ensures { result ≡ mask_l (flag ∷ []) * 2 ^ i }
{
    (flag as u64) << i
}
