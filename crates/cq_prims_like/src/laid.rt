//! Texts laid one behind the other, so that a run of bytes is sought in many of them at once.
ghost use Rattle.cq_prims_like.specs.Patterns.{FindsInEach};
ghost use Rattle.cq_vectors_stored.specs.Columns.{texts_of};
ghost use Rattle.std.specs.List.{concat};
ghost use Rattle.std.specs.Prelude.{◌+◌, ◌++◌, ◌≡◌, ◌≤◌, IfSome, length, take};

use crate::places::{next_from, place_within};
use memchr::memmem::Finder;

/// How many bytes the texts may have together.
const ROOM: usize = 4096;

/// The first place of the run in each of 64 texts, if they are short.
pub fn first_places(run: &Finder<'_>, texts: &[&str]) -> Option<[Option<usize>; 64]>
    requires { length texts.now ≡ 64 }
    ensures { IfSome result (λ places. FindsInEach run.now (texts_of texts.now) places) }
{
    let mut room = [0; ROOM];
    let len = lay(texts, &mut room)?;
    Some(places_in(run, texts, &room[..len]))
}

/// Lays the texts at the front of the room, if there is enough, and says how many bytes they have.
fn lay(texts: &[&str], room: &mut [u8; ROOM]) -> Option<usize>
    ensures { IfSome result (λ len. (len ≤ 4096) × (take len room.new ≡ concat (texts_of texts.now))) }
{
    let mut len = 0;
    for text in texts {
        if ROOM - len < text.len() {
            return None;
        }
        put(text.as_bytes(), len, room);
        len += text.len();
    }
    Some(len)
}

/// Copies the text behind the first bytes of the room.
fn put(text: &[u8], len: usize, room: &mut [u8; ROOM])
    requires { len + length text.now ≤ 4096 }
    ensures { take (len + length text.now) room.new ≡ take len room.old ++ text.now }
{
    room[len..len + text.len()].copy_from_slice(text);
}

/// The first place of the run in each of the texts, which are the bytes one behind the other.
fn places_in(run: &Finder<'_>, texts: &[&str], bytes: &[u8]) -> [Option<usize>; 64]
    requires many { length texts.now ≡ 64 }
    requires laid { bytes.now ≡ concat (texts_of texts.now) }
    requires few { length bytes.now ≤ 4096 }
    ensures { FindsInEach run.now (texts_of texts.now) result }
{
    let mut places = [None; 64];
    let mut start = 0;
    let mut next = run.find(bytes);
    for i in 0..64 {
        let end = start + texts[i].len();
        next = next_from(run, bytes, start, next);
        places[i] = place_within(run, start, end, next);
        start = end;
    }
    places
}
