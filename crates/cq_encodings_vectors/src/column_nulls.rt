//! NULL at some places of a whole column.
ghost use Rattle.std.specs.Bool.{OnTrue};
ghost use Rattle.std.specs.Prelude.{length, ◌≡◌, ◌≤◌};
ghost use Rattle.cq_encodings_vectors.specs.Parts.{items_of};
ghost use Rattle.cq_encodings_vectors.specs.Places.{NoneIsSet, flags_at};

use cq_encodings_plain::Nulls;
use cq_vectors_masks::Plane;

/// The flags of some places. None is read if none of the column is set, which costs a look at each part of it.
pub(crate) fn flags_of(nulls: &Nulls, len: usize, places: &[u16]) -> Plane
    requires all { length nulls.now ≡ len }
    requires few { length places.now ≤ 1024 }
    ensures { result ≡ flags_at nulls.now places.now }
{
    if are_clear(nulls, len) {
        let mut flags = Plane::new();
        flags.set_all(false, places.len());
        return flags;
    }
    read_flags(nulls, places)
}

/// Whether no flag is set.
fn are_clear(nulls: &Nulls, len: usize) -> bool
    requires { length nulls.now ≡ len }
    ensures { OnTrue result (NoneIsSet nulls.now) }
{
    for k in 0..len.div_ceil(1024) {
        if !is_clear_part(nulls, k) {
            return false;
        }
    }
    true
}

/// Whether none of the flags from 1,024 * k on, at most 1,024, is set.
fn is_clear_part(nulls: &Nulls, k: usize) -> bool
    ensures { OnTrue result (NoneIsSet (items_of k nulls.now)) }
{
    match nulls.plane(k) {
        Some(plane) => plane.is_clear(),
        None => true,
    }
}

fn read_flags(nulls: &Nulls, places: &[u16]) -> Plane
    requires { length places.now ≤ 1024 }
    ensures { result ≡ flags_at nulls.now places.now }
{
    let mut flags = Plane::new();
    for place in places {
        flags.push(nulls.at(usize::from(*place)));
    }
    flags
}
