//! Texts of a part where they stand.
ghost use Rattle.std.specs.Prelude.{IfSome, length, ◌*◌, ◌≡◌, ◌≤◌};
ghost use Rattle.cq_encodings_vectors.specs.Parts.{part_of};
ghost use Rattle.cq_vectors.specs.Form.{values_in};

use crate::offsets::lend_offsets;
use cq_encodings::Dict;
use cq_encodings_plain::{Encoded, PlainTexts};
use cq_vectors::Form;
use cq_vectors_stored::{Codes, RunTexts};

/// The codes of the entries, or None where they are of no width that is lent.
pub(crate) fn lend_dict(dict: &Dict, k: usize) -> Option<Form<'_>>
    requires { 1024 * k ≤ length dict.now }
    ensures { IfSome result (λ form. values_in form ≡ part_of k dict.now) }
{
    let (entries, codes, nulls) = dict.parts();
    let plane = nulls.plane(k)?;
    let codes = lend_offsets(codes, k)?;
    Some(Form::Codes(Codes::new(entries, codes, plane)))
}

/// The texts of the run from the first of the part on. None past the end.
pub(crate) fn lend_texts(plain: &PlainTexts, k: usize) -> Option<Form<'_>>
    requires { 1024 * k ≤ length plain.now }
    ensures { IfSome result (λ form. values_in form ≡ part_of k plain.now) }
{
    let _len = plain.len();
    let (texts, nulls) = plain.parts();
    let plane = nulls.plane(k)?;
    Some(Form::Run(RunTexts::new(texts, 1024 * k, plane)))
}
