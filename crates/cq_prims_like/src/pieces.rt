//! Patterns of pieces between `%`s, with a `%` at each end, as `%special%requests%`.
ghost use Rattle.cq_prims_like.specs.Patterns.{ArePiecesOf, HasFirstPlace, StandIn};
ghost use Rattle.std.specs.Prelude.{◌↔◌, IfOk, IfSome, IsTrue, slice_get};

use crate::pattern::is_ordinary;
use memchr::memmem::Finder;
use std::alloc::{AllocError, Global};

/// The pieces of the pattern, if it has no `_`, and a `%` at each end.
pub(crate) fn pieces_of<'p>(
    alloc: Global,
    pattern: &'p str,
) -> Result<Option<Vec<Finder<'p>>>, AllocError>
    ensures { IfOk result (λ found. IfSome found (λ pieces. ArePiecesOf pieces.items pattern.now)) }
{
    let Some(mut rest) = pattern.strip_prefix('%') else {
        return Ok(None);
    };
    let mut pieces = Vec::new(alloc);
    while let Some((piece, more)) = rest.split_once('%') {
        if !is_ordinary(piece) {
            return Ok(None);
        }
        pieces.push(Finder::new(piece.as_bytes()))?;
        rest = more;
    }
    if rest.is_empty() {
        Ok(Some(pieces))
    } else {
        Ok(None)
    }
}

/// Whether the pieces stand in the text one behind the other, where the first of them has this first place.
pub(crate) fn stand_from(pieces: &[Finder<'_>], text: &[u8], first: usize) -> bool
    requires { HasFirstPlace (slice_get pieces.now 0) text.now first }
    ensures { IsTrue result ↔ StandIn pieces.now text.now }
{
    match pieces.split_first() {
        Some((piece, more)) => stand_in(more, &text[first + piece.needle().len()..]),
        None => true,
    }
}

/// Whether the pieces stand in the text one behind the other. The first place of a piece leaves the most to the others.
pub(crate) fn stand_in(pieces: &[Finder<'_>], text: &[u8]) -> bool
    ensures { IsTrue result ↔ StandIn pieces.now text.now }
{
    let mut rest = text;
    for piece in pieces {
        match piece.find(rest) {
            Some(at) => rest = &rest[at + piece.needle().len()..],
            None => return false,
        }
    }
    true
}
