//! Patterns of one piece between `%`s with `_` in it, as `%d_posits%`.
ghost use Rattle.cq_model.specs.Like.{like, percent};
ghost use Rattle.cq_prims_like.specs.Patterns.{EndsBy, IsAround, IsAroundOf, are_single, fits_around, signs_of, stands_for};
ghost use Rattle.memchr.specs.Find.{FindsNeedle, OccursAt};
ghost use Rattle.std.specs.Prelude.{◌∷◌, ◌≡◌, IfSome, MatchOption, Some, [], true};
ghost use Rattle.std.specs.Str.{chars};

use crate::pattern::{is_ordinary, longest_run};
use crate::places::place_from;
use memchr::memmem::Finder;

/// A run of ordinary signs, and the signs around it: each of those between the first `%` and the run stands for one
/// character. A text that has the run nowhere does not fit.
#[derive(Drop)]
pub(crate) struct Around<'p> {
    front: &'p str,
    run: Finder<'p>,
    rest: &'p str,
}

impl<'p> Around<'p> {
    /// The parts of the pattern, if it is a piece between two `%`s with an ordinary sign in it.
    pub(crate) fn of(pattern: &'p str) -> Option<Around<'p>>
        ensures { IfSome result (λ around. IsAroundOf around pattern.now) }
    {
        let Some(tail) = pattern.strip_prefix('%') else {
            return None;
        };
        let run = longest_run(tail);
        let Some((front, rest)) = tail.split_once(run) else {
            return None;
        };
        if run.is_empty() || !is_ordinary(run) || !are_single(front) || !is_last(rest) {
            return None;
        }
        Some(Around {
            front,
            run: Finder::new(run.as_bytes()),
            rest,
        })
    }

    pub(crate) fn run(&self) -> &Finder<'p>
        ensures { result.now ≡ self.now.run }
    {
        &self.run
    }

    /// Whether the pattern fits the text, where the run has this first place.
    pub(crate) fn fits_from(&self, text: &str, first: usize) -> bool
        requires around { IsAround self.now }
        requires found { FindsNeedle text.now self.now.run 0 (Some first) }
        ensures { result ≡ like (percent ∷ signs_of self.now) (chars text.now) }
    {
        let mut next = Some(first);
        while let Some(place) = next {
            if self.fits_at(text, place) {
                return true;
            }
            next = place_from(&self.run, text.as_bytes(), place + 1);
        }
        false
    }

    /// Whether the signs around the run fit what stands around the place.
    fn fits_at(&self, text: &str, place: usize) -> bool
        requires around { IsAround self.now }
        requires there { OccursAt text.now self.now.run place }
        ensures { result ≡ fits_around self.now text.now place }
    {
        let behind = place + self.run.needle().len();
        fits_end(self.front, &text[..place]) && fits_whole(self.rest, &text[behind..])
    }
}

/// Whether the signs fit the text. Mostly they are a `%`, which fits any.
fn fits_whole(signs: &str, text: &str) -> bool
    ensures { result ≡ like (chars signs.now) (chars text.now) }
{
    signs == "%" || cq_model_eval::like(signs, text)
}

/// Whether the signs fit an end of the text. Each of them stands for one character.
fn fits_end(signs: &str, text: &str) -> bool
    requires { are_single (chars signs.now) ≡ true }
    ensures { result ≡ like (percent ∷ chars signs.now) (chars text.now) }
{
    let (mut left, mut front) = (signs, text);
    while let Some((sign, more)) = last_char(left) {
        let Some((letter, before)) = last_char(front) else {
            return false;
        };
        if !stands_for(sign, letter) {
            return false;
        }
        left = more;
        front = before;
    }
    true
}

/// The last character of the text, and what stands before it.
fn last_char(text: &str) -> Option<(char, &str)>
    ensures { MatchOption result (chars text.now ≡ []) (λ x. EndsBy x.0 x.1.now text.now) }
{
    let mut letters = text.chars();
    let last = letters.next_back()?;
    Some((last, letters.as_str()))
}

/// Whether a sign other than `%` stands for the character.
fn stands_for(sign: char, letter: char) -> bool
    ensures { result ≡ stands_for sign letter }
{
    sign == '_' || letter == sign
}

/// Whether each sign stands for one character: there is no `%`.
fn are_single(signs: &str) -> bool
    ensures { result ≡ are_single (chars signs.now) }
{
    signs.chars().all(|sign| sign != '%')
}

/// Whether there is one `%`, at the end. No answer depends on it: behind other signs a try at each place would be dear.
fn is_last(rest: &str) -> bool {
    match rest.strip_suffix('%') {
        Some(signs) => are_single(signs),
        None => false,
    }
}
