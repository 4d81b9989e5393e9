//! The number 0 where NULL stands.
ghost use Rattle.std.specs.Prelude.{length, ◌≡◌};
ghost use Rattle.std.specs.Simd.Lanes.{zip2};
ghost use Rattle.cq_prims_arithmetic.specs.Operation.{zero_if};

use cq_vectors_masks::Plane;

/// Where no NULL stands it takes no time.
pub(crate) fn clear_nulls(values: &mut Vec<i64>, nulls: &Plane)
    requires { length nulls.now ≡ length values.old.items }
    ensures { values.new.items ≡ zip2 zero_if values.old.items nulls.now }
{
    if nulls.is_clear() {
        return;
    }
    for i in 0..nulls.len() {
        if nulls.get(i) {
            values[i] = 0;
        }
    }
}
