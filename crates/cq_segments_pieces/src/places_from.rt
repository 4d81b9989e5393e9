//! Places that stand further on.
ghost use Rattle.std.specs.List.{range_with_len};
ghost use Rattle.std.specs.Prelude.{IfOk, length, map, ◌+◌, ◌<◌, ◌≡◌, ◌≤◌};
ghost use Rattle.cq_encodings_vectors.specs.Places.{AreBelow};

use std::alloc::{AllocError, Global};

/// So many places from one on.
pub(crate) fn places_from(alloc: Global, from: usize, count: usize) -> Result<Vec<u16>, AllocError>
    requires early { from < 1024 }
    requires few { count ≤ 1024 }
    ensures { IfOk result (λ places. places.items ≡ range_with_len from count) }
{
    let mut places: Vec<u16> = Vec::new(alloc);
    places.reserve(count)?;
    for place in 0..count {
        places.push_reserved((from + place) as u16);
    }
    Ok(places)
}

/// The places that stand so much behind these.
pub(crate) fn places_behind(
    alloc: Global,
    from: usize,
    places: &[u16],
) -> Result<Vec<u16>, AllocError>
    requires early { from < 1024 }
    requires there { AreBelow 1024 places.now }
    ensures { IfOk result (λ behind. behind.items ≡ map (λ place. from + place) places.now) }
{
    let mut behind: Vec<u16> = Vec::new(alloc);
    behind.reserve(places.len())?;
    for place in places {
        behind.push_reserved(from as u16 + *place);
    }
    Ok(behind)
}
