//! Patterns of LIKE, read once for many texts.
//!
//! `new` reads the pattern and keeps the form that is quickest to ask. Then `fits` is asked of one text, or a kernel
//! takes `sought` or `front` to ask many at once. To read it costs a few passes over the pattern; a text costs one
//! search for a run of bytes, or one comparison, and only where neither decides a walk by characters.
ghost use Rattle.cq_model.specs.Like.{like};
ghost use Rattle.cq_prims_like.specs.Patterns.{HasFirstPlace, IsFormOf, IsFrontOf, TellsOfFront, is_ordinary, run_of};
ghost use Rattle.std.specs.Prelude.{◌≡◌, IfOk, IfSome, List, option_copied, ℕ};
ghost use Rattle.std.specs.Str.{chars};

use crate::around::Around;
use crate::pieces::{pieces_of, stand_from};
use crate::sought::Sought;
use memchr::memmem::Finder;
use std::alloc::{AllocError, Global};
use std::marker::Model;

/// A pattern, which contracts see as its bytes. `%` stands for any characters, and `_` for one.
#[derive(Drop)]
pub struct Pattern<'p> {
    text: &'p str,
    form: PatternForm<'p>,
}

/// What a text has to do with the ordinary signs of the pattern. Between `%`s, with one at each end, they are pieces,
/// one behind the other. With two `%`s, one at each end, there may be `_` around the longest run. Of any other pattern
/// the text has at least a run.
#[derive(Drop)]
pub(crate) enum PatternForm<'p> {
    Whole(&'p str),
    Prefix(&'p str),
    Suffix(&'p str),
    Infix(Finder<'p>),
    Pieces(Vec<Finder<'p>>),
    Around(Around<'p>),
    Having(Finder<'p>),
    Other,
}

impl<'p> Model for Pattern<'p> {
    ghost use Rattle.std.specs.Prelude.{List, ℕ};
    ghost use Rattle.std.specs.Str.{IsUtf8};
    ghost use Rattle.cq_prims_like.specs.Patterns.{IsFormOf};

    ghost Value = { List ℕ };

    ghost view = { λ p. p.text.now };

    ghost invariant = { λ p. IsUtf8 p.text.now × IsFormOf p.form p.text.now };
}

impl<'p> Pattern<'p> {
    /// Lends the pattern: memory is taken for the pieces of one with several alone.
    pub fn new(alloc: Global, pattern: &'p str) -> Result<Pattern<'p>, AllocError>
        ensures { IfOk result (λ p. p ≡ pattern.now) }
    {
        let form = form_of(alloc, pattern)?;
        Ok(Pattern {
            text: pattern,
            form,
        })
    }

    /// Whether the pattern fits the text.
    pub fn fits(&self, text: &str) -> bool
        ensures { result ≡ like (chars self.now) (chars text.now) }
    {
        match self.sought() {
            Some(sought) => sought.fits(text, sought.run().find(text.as_bytes())),
            None => self.form.fits(self.text, text),
        }
    }

    /// The pattern by the run that a text has to have, if there is one.
    pub fn sought(&self) -> Option<Sought<'_>>
        ensures { IfSome result (λ sought. sought.pattern ≡ self.now) }
    {
        Sought::of(self.text, &self.form)
    }

    /// What a text has to begin with, where that is all that the pattern asks.
    pub fn front(&self) -> Option<&str>
        ensures { IfSome result (λ front. IsFrontOf front.now self.now) }
    {
        match &self.form {
            PatternForm::Prefix(front) => Some(front),
            _ => None,
        }
    }
}

impl<'p> PatternForm<'p> {
    /// The run of bytes that a text has to have, if one is sought.
    pub(crate) fn run(&self) -> Option<&Finder<'p>>
        ensures { option_copied result ≡ run_of self.now }
    {
        match self {
            PatternForm::Infix(part) => Some(part),
            PatternForm::Pieces(pieces) => pieces.first(),
            PatternForm::Around(around) => Some(around.run()),
            PatternForm::Having(run) => Some(run),
            _ => None,
        }
    }

    /// Whether the pattern of this form fits the text, with no search for a run.
    fn fits(&self, pattern: &str, text: &str) -> bool
        requires { IsFormOf self.now pattern.now }
        ensures { result ≡ like (chars pattern.now) (chars text.now) }
    {
        match self {
            PatternForm::Whole(whole) => text == *whole,
            PatternForm::Prefix(front) => text.starts_with(*front),
            PatternForm::Suffix(end) => text.ends_with(*end),
            _ => cq_model_eval::like(pattern, text),
        }
    }

    /// Whether the pattern of this form fits the text, where the run has this first place.
    pub(crate) fn fits_from(&self, pattern: &str, text: &str, first: usize) -> bool
        requires form { IsFormOf self.now pattern.now }
        requires found { HasFirstPlace (run_of self.now) text.now first }
        ensures { result ≡ like (chars pattern.now) (chars text.now) }
    {
        match self {
            PatternForm::Infix(_) => true,
            PatternForm::Pieces(pieces) => stand_from(pieces, text.as_bytes(), first),
            PatternForm::Around(around) => around.fits_from(text, first),
            _ => cq_model_eval::like(pattern, text),
        }
    }
}

fn form_of<'p>(alloc: Global, pattern: &'p str) -> Result<PatternForm<'p>, AllocError>
    ensures { IfOk result (λ form. IsFormOf form pattern.now) }
{
    if is_ordinary(pattern) {
        return Ok(PatternForm::Whole(pattern));
    }
    if let Some(front) = pattern.strip_suffix('%') {
        if is_ordinary(front) {
            return Ok(PatternForm::Prefix(front));
        }
    }
    if let Some(rest) = pattern.strip_prefix('%') {
        if is_ordinary(rest) {
            return Ok(PatternForm::Suffix(rest));
        }
        if let Some(part) = rest.strip_suffix('%') {
            if is_ordinary(part) {
                return Ok(PatternForm::Infix(Finder::new(part.as_bytes())));
            }
        }
    }
    match pieces_of(alloc, pattern)? {
        Some(pieces) => Ok(PatternForm::Pieces(pieces)),
        None => Ok(form_around(pattern)),
    }
}

/// The form of a pattern by the signs around its longest run, or else by the run alone.
fn form_around(pattern: &str) -> PatternForm<'_>
    ensures { IsFormOf result pattern.now }
{
    match Around::of(pattern) {
        Some(around) => PatternForm::Around(around),
        None => form_by_run(pattern),
    }
}

/// The form of a pattern by its longest run of ordinary signs.
fn form_by_run(pattern: &str) -> PatternForm<'_>
    ensures { IsFormOf result pattern.now }
{
    let run = longest_run(pattern);
    let finder = Finder::new(run.as_bytes());
    if is_ordinary(run) && finder.find(pattern.as_bytes()).is_some() {
        return PatternForm::Having(finder);
    }
    PatternForm::Other
}

/// The longest run of ordinary signs. No answer depends on which it is.
pub(crate) fn longest_run(pattern: &str) -> &str {
    let mut longest = "";
    for run in pattern.split(|sign| sign == '%' || sign == '_') {
        if longest.len() < run.len() {
            longest = run;
        }
    }
    longest
}

/// Whether there is neither `%` nor `_`.
pub(crate) fn is_ordinary(text: &str) -> bool
    ensures { result ≡ is_ordinary (chars text.now) }
{
    text.chars().all(|sign| sign != '%' && sign != '_')
}

/// Whether a text begins with the front, and so fits each pattern that is the front and `%`.
pub fn begins(text: &str, front: &str) -> bool
    ensures { TellsOfFront front.now text.now result }
{
    text.starts_with(front)
}
