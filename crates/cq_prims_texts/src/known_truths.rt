//! Truths of the entries of dictionaries, known from one vector to the next.
//!
//! All vectors of a segment's column have the same entries. So each entry is asked once, when the first of them comes, and
//! again where a vector has other entries, as that of the next segment has. To see that they are the same takes a
//! comparison of their bytes, so what has many bytes is not kept. A few lists of entries are kept, and then all are forgotten.
ghost use Rattle.cq_prims_texts.specs.Asked.{compared_by, liked_by, truth_asked};
ghost use Rattle.cq_prims_texts.specs.Named.{truths_of_texts};
ghost use Rattle.std.specs.Bool.{OnTrue};
ghost use Rattle.std.specs.Prelude.{◌≡◌, IfOk, OnOk, map};

use crate::entry_tests::{EntryCompared, EntryFits, EntryTest};
use crate::likes::like;
use crate::told_truths::ToldTruths;
use cq_prims_like::Pattern;
use cq_values::{Comparison, Truth};
use cq_vectors::{Form, Vector};
use cq_vectors_masks::TruthMask;
use cq_vectors_stored::{Codes, TextRun};
use std::alloc::{AllocError, Global};

/// How many lists of entries are kept, each with what was asked of them.
const MOST_LISTS: usize = 16;

/// Of how many bytes the entries of a list may be.
const MOST_BYTES: usize = 262_144;

/// What is asked of a text.
#[derive(Clone, Copy)]
pub(crate) enum Asked<'a> {
    /// Whether it fits a pattern.
    Like(&'a str),
    /// How it compares with another text.
    Compared(Comparison, &'a str),
}

/// The entries that came last, each list with what was asked of them, and the answers.
#[derive(Drop)]
pub struct KnownTruths<'a> {
    lists: Vec<Known<'a>>,
}

/// What the entries of a list answered.
#[derive(Drop)]
struct Known<'a> {
    asked: Asked<'a>,
    entries: &'a TextRun,
    truths: ToldTruths,
    ghost are: { truths ≡ truths_of_texts (truth_asked asked) entries.now },
}

impl<'a> Asked<'a> {
    /// Whether the same is asked.
    fn is(&self, other: &Asked<'_>) -> bool
        ensures { OnTrue result (truth_asked self.now ≡ truth_asked other.now) }
    {
        match (self, other) {
            (Asked::Like(pattern), Asked::Like(other)) => *pattern == *other,
            (Asked::Compared(comparison, text), Asked::Compared(by, other)) => *comparison == *by
                && *text == *other,
            _ => false,
        }
    }

    /// The truth of each text.
    fn truths_of(&self, alloc: Global, texts: &TextRun) -> Result<Vec<Truth>, AllocError>
        ensures { IfOk result (λ truths. truths.items ≡ truths_of_texts (truth_asked self.now) texts.now) }
    {
        match self {
            Asked::Like(pattern) => {
                let pattern = Pattern::new(alloc, *pattern)?;
                truths_of_fits(alloc, &pattern, texts)
            }
            Asked::Compared(comparison, text) => {
                let test = EntryCompared {
                    comparison: *comparison,
                    text: *text,
                };
                truths_by(alloc, &test, texts)
            }
        }
    }
}

impl<'a> KnownTruths<'a> {
    /// Nothing is known yet. Takes no memory.
    pub fn new(alloc: Global) -> KnownTruths<'a> {
        KnownTruths {
            lists: Vec::new(alloc),
        }
    }

    /// The truth of the text of each place, or an answer that it is not known of the entries.
    fn set(&self, asked: &Asked<'_>, texts: &Codes<'_>, to: &mut TruthMask) -> bool
        ensures { OnTrue result (to.new ≡ map (truth_asked asked.now) texts.now) }
    {
        for known in self.lists.as_slice() {
            if known.set(asked, texts, to) {
                return true;
            }
        }
        false
    }

    /// Keeps what the entries of a list answered. Where there are as many lists as may be, those before are forgotten.
    fn keep(&mut self, known: Known<'a>) -> Result<(), AllocError> {
        if self.lists.len() >= MOST_LISTS {
            self.lists.clear();
        }
        self.lists.push(known)?;
        Ok(())
    }
}

impl<'a> Known<'a> {
    /// Asks each entry.
    fn of(alloc: Global, asked: Asked<'a>, entries: &'a TextRun) -> Result<Known<'a>, AllocError> {
        let truths = ToldTruths::of(asked.truths_of(alloc, entries)?);
        Ok(Known {
            asked,
            entries,
            truths,
        })
    }

    /// The truth of the text of each place, where this was asked and the entries are these.
    fn set(&self, asked: &Asked<'_>, texts: &Codes<'_>, to: &mut TruthMask) -> bool
        ensures { OnTrue result (to.new ≡ map (truth_asked asked.now) texts.now) }
    {
        let (entries, codes) = texts.parts();
        if !self.asked.is(asked) || !are_same(self.entries, entries) {
            return false;
        }
        self.truths.set(codes, texts.nulls(), to);
        true
    }
}

/// Whether the text of each place fits the pattern, and Unknown where there is no text. Entries are asked where nothing
/// is known of them.
pub fn like_known<'a>(
    alloc: Global,
    values: &Vector<'a>,
    pattern: &'a str,
    known: &mut KnownTruths<'a>,
    to: &mut TruthMask,
) -> Result<(), AllocError>
    ensures { OnOk result (to.new ≡ map (liked_by pattern.now) values.now) }
{
    if let Form::Codes(texts) = values.form() {
        if ask_codes(alloc, texts, Asked::Like(pattern), known, to)? {
            return Ok(());
        }
    }
    let pattern = Pattern::new(alloc, pattern)?;
    like(values, &pattern, to);
    Ok(())
}

/// The truth of the comparison with a text in each place, or an answer that the values have no codes, or that their
/// entries are not kept.
pub fn compare_known<'a>(
    alloc: Global,
    comparison: Comparison,
    values: &Vector<'a>,
    text: &'a str,
    known: &mut KnownTruths<'a>,
    to: &mut TruthMask,
) -> Result<bool, AllocError>
    ensures { IfOk result (λ set. OnTrue set (to.new ≡ map (compared_by comparison text.now) values.now)) }
{
    match values.form() {
        Form::Codes(texts) => {
            ask_codes(alloc, texts, Asked::Compared(comparison, text), known, to)
        }
        _ => Ok(false),
    }
}

/// The truth of the text of each place, or an answer that there are too many entries for so few codes, or bytes to compare.
fn ask_codes<'a>(
    alloc: Global,
    texts: &Codes<'a>,
    asked: Asked<'a>,
    known: &mut KnownTruths<'a>,
    to: &mut TruthMask,
) -> Result<bool, AllocError>
    ensures { IfOk result (λ set. OnTrue set (to.new ≡ map (truth_asked asked.entry) texts.now)) }
{
    let (entries, codes) = texts.parts();
    if entries.len() / 8 > codes.len() || has_many_bytes(entries) {
        return Ok(false);
    }
    if known.set(&asked, texts, to) {
        return Ok(true);
    }
    let answers = Known::of(alloc, asked, entries)?;
    let set = answers.set(&asked, texts, to);
    known.keep(answers)?;
    Ok(set)
}

/// Whether each text fits the pattern.
fn truths_of_fits(
    alloc: Global,
    pattern: &Pattern<'_>,
    texts: &TextRun,
) -> Result<Vec<Truth>, AllocError>
    ensures { IfOk result (λ truths. truths.items ≡ truths_of_texts (liked_by pattern.now) texts.now) }
{
    truths_by(alloc, &EntryFits { pattern }, texts)
}

/// The truth of each text.
fn truths_by<T: EntryTest>(
    alloc: Global,
    test: &T,
    texts: &TextRun,
) -> Result<Vec<Truth>, AllocError>
    ensures { IfOk result (λ truths. truths.items ≡ truths_of_texts (T.truth test.now) texts.now) }
{
    let mut truths: Vec<Truth> = Vec::new(alloc);
    truths.reserve(texts.len())?;
    for at in 0..texts.len() {
        truths.push_reserved(test.ask(texts.get(at)));
    }
    Ok(truths)
}

/// Whether the texts are the same.
fn are_same(a: &TextRun, b: &TextRun) -> bool
    ensures { OnTrue result (a.now ≡ b.now) }
{
    let len = a.len();
    if b.len() != len {
        return false;
    }
    let mut same = a.bytes_of(0, len) == b.bytes_of(0, len);
    for i in 0..len {
        same &= a.end(i) == b.end(i);
    }
    same
}

/// Whether it takes long to compare the texts with others.
fn has_many_bytes(texts: &TextRun) -> bool {
    texts.bytes_of(0, texts.len()).len() > MOST_BYTES
}
