//! Truths of entries, read by the numbers that name them.
//!
//! A condition is asked once of each entry, and its truth then stands in each place that names the entry.
ghost use Rattle.cq_prims_texts.specs.Named.{truth_named};
ghost use Rattle.std.specs.List.{All};
ghost use Rattle.std.specs.Prelude.{◌<◌, ◌≡◌, ◌≤◌, length, map};

use cq_prims_texts::set_named;
use cq_values::Truth;
use cq_vectors_masks::{Plane, TruthMask};

/// The truth of the entry that each number names. Takes no memory.
pub fn dict_mask(entries: &[Truth], numbers: &[u64], to: &mut TruthMask)
    requires known { All (λ n. n < length entries.now) numbers.now }
    requires few { length numbers.now ≤ 1024 }
    ensures { to.new ≡ map (truth_named entries.now) numbers.now }
{
    let mut nulls = Plane::new();
    nulls.set_all(false, numbers.len());
    set_named(entries, numbers, &nulls, to);
}
