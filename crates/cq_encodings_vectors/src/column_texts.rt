//! Texts of a whole column at some places.
ghost use Rattle.std.specs.Prelude.{IfOk, IfSome, length, ◌≡◌, ◌≤◌};
ghost use Rattle.cq_encodings_vectors.specs.Places.{AreBelow, HoldsThose};

use crate::column_nulls::flags_of;
use crate::offsets::all_offsets;
use crate::offsets_at::offsets_at;
use cq_encodings::Dict;
use cq_vectors::Form;
use cq_vectors_stored::Codes;
use std::alloc::{AllocError, Global};

/// The texts of some places by their codes, which are copied, or None where the codes are of no width that is lent.
pub(crate) fn dict_at<'a>(
    alloc: Global,
    dict: &'a Dict,
    places: &[u16],
) -> Result<Option<Form<'a>>, AllocError>
    requires few { length places.now ≤ 1024 }
    requires there { AreBelow (length dict.now) places.now }
    ensures { IfOk result (λ found. IfSome found (HoldsThose dict.now places.now)) }
{
    let (entries, codes, nulls) = dict.parts();
    let Some(codes) = all_offsets(codes) else {
        return Ok(None);
    };
    let flags = flags_of(nulls, codes.len(), places);
    let copied = offsets_at(alloc, codes, places)?;
    let texts = Codes::own(alloc, entries, copied, flags)?;
    Ok(Some(Form::Codes(texts)))
}
