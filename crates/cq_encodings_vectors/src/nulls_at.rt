//! NULL at some places.
ghost use Rattle.std.specs.Prelude.{length, ◌≡◌, ◌≤◌};
ghost use Rattle.cq_encodings_vectors.specs.Places.{AreBelow, flags_at};

use cq_vectors_masks::Plane;

/// The flags of some places, where none is read if none is set.
pub(crate) fn nulls_at(nulls: &Plane, places: &[u16]) -> Plane
    requires few { length places.now ≤ 1024 }
    requires there { AreBelow (length nulls.now) places.now }
    ensures { result ≡ flags_at nulls.now places.now }
{
    if nulls.is_clear() {
        let mut flags = Plane::new();
        flags.set_all(false, places.len());
        return flags;
    }
    push_flags(nulls, places)
}

fn push_flags(nulls: &Plane, places: &[u16]) -> Plane
    requires few { length places.now ≤ 1024 }
    requires there { AreBelow (length nulls.now) places.now }
    ensures { result ≡ flags_at nulls.now places.now }
{
    let _len = nulls.len();
    let mut flags = Plane::new();
    for place in places {
        flags.push(nulls.get(usize::from(*place)));
    }
    flags
}
