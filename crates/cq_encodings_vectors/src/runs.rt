//! One value in all places of a part.
ghost use Rattle.std.specs.Prelude.{IfSome, length, ◌*◌, ◌≡◌, ◌≤◌};
ghost use Rattle.cq_encodings_vectors.specs.Parts.{part_of};
ghost use Rattle.cq_vectors.specs.Form.{values_in};

use cq_encodings::Runs;
use cq_encodings_plain::Encoded;
use cq_vectors::Form;

/// The value of all places, or None where there is not exactly one run.
pub(crate) fn lend_run(runs: &Runs, k: usize) -> Option<Form<'_>>
    requires { 1024 * k ≤ length runs.now }
    ensures { IfSome result (λ form. values_in form ≡ part_of k runs.now) }
{
    match runs.one() {
        Some(value) => {
            let len = runs.len() - 1024 * k;
            Some(Form::Constant(value, len.min(1024)))
        }
        None => None,
    }
}
