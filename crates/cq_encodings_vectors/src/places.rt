//! What stands at some places.
ghost use Rattle.std.specs.Prelude.{◌≡◌, IfOk, length};
ghost use Rattle.cq_encodings_vectors.specs.Places.{AreBelow, items_at};

use std::alloc::{AllocError, Global};

/// What a list has at some places.
pub fn copies_at<T: Copy>(alloc: Global, all: &[T], places: &[u16]) -> Result<Vec<T>, AllocError>
    requires { AreBelow (length all.now) places.now }
    ensures { IfOk result (λ f. (past : T) → f.items ≡ items_at all.now places.now past) }
{
    let mut found: Vec<T> = Vec::new(alloc);
    found.reserve(places.len())?;
    for place in places {
        found.push_reserved(all[usize::from(*place)]);
    }
    Ok(found)
}
