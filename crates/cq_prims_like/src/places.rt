//! Places of a run of bytes.
ghost use Rattle.cq_prims_like.specs.Patterns.{FindsWithin};
ghost use Rattle.memchr.specs.Find.{FindsNeedle};
ghost use Rattle.std.specs.Bool.{OnFalse};
ghost use Rattle.std.specs.Prelude.{◌+◌, ◌<◌, ◌^◌, ◌≤◌, IfSome, length, ℕ};

use memchr::memmem::Finder;

/// The first place of the run that does not lie before this one.
pub(crate) fn place_from(run: &Finder<'_>, bytes: &[u8], from: usize) -> Option<usize>
    requires { from ≤ length bytes.now }
    ensures { FindsNeedle bytes.now run.now from result }
{
    let at = run.find(&bytes[from..])?;
    Some(from + at)
}

/// The first place of the run from the start on, where the first from some place before it is known.
pub(crate) fn next_from(
    run: &Finder<'_>,
    bytes: &[u8],
    start: usize,
    next: Option<usize>,
) -> Option<usize>
    requires within { start ≤ length bytes.now }
    requires known { (from : ℕ) × (from ≤ start) × FindsNeedle bytes.now run.now from next }
    ensures { FindsNeedle bytes.now run.now start result }
{
    match next {
        Some(place) if place < start => place_from(run, bytes, start),
        _ => next,
    }
}

/// The first place of the run in the text from `start` to `end`, where the first from `start` on is known.
pub(crate) fn place_within(
    run: &Finder<'_>,
    start: usize,
    end: usize,
    next: Option<usize>,
) -> Option<usize>
    requires { IfSome next (λ place. (start ≤ place) × (place + length run.now < 2 ^ 64)) }
    ensures { FindsWithin run.now start end next result }
{
    let place = next?;
    if place + run.needle().len() <= end {
        Some(place - start)
    } else {
        None
    }
}

/// Whether the place leaves the run room before the end. By `false` a text that ends there has the run nowhere.
pub(crate) fn ends_by(run: &Finder<'_>, end: usize, next: Option<usize>) -> bool
    requires { IfSome next (λ place. place + length run.now < 2 ^ 64) }
    ensures { OnFalse result (IfSome next (λ place. end < place + length run.now)) }
{
    match next {
        Some(place) => place + run.needle().len() <= end,
        None => false,
    }
}
