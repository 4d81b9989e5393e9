//! Truths of a test that is not known where a value is NULL.
ghost use Rattle.cq_prims_lanes.specs.UpTo.{known_by};
ghost use Rattle.cq_vectors_masks.specs.TruthMask.{known};
ghost use Rattle.std.specs.Prelude.{◌≡◌, ◌≤◌, false, length, map};

use cq_vectors_masks::{Plane, TruthMask, WordTest};

/// The answers of the test, and Unknown where a value is NULL.
pub fn set_known_by<T: WordTest>(test: &T, nulls: &Plane, to: &mut TruthMask)
    requires { length nulls.now ≤ T.places test.now }
    ensures { to.new ≡ known_by (T.holds test.now) nulls.now }
{
    let mut answers = Plane::new();
    answers.set_where(test, nulls.len());
    to.set_known(&answers, nulls);
}

/// False in each place, and Unknown where a value is NULL.
pub fn set_never(nulls: &Plane, to: &mut TruthMask)
    ensures { to.new ≡ map (known false) nulls.now }
{
    let mut none = Plane::new();
    none.set_all(false, nulls.len());
    to.set_known(&none, nulls);
}
