//! A column in whichever form it is kept.
ghost use Rattle.std.specs.Prelude.{IfSome, slice_index_or};
ghost use Rattle.cq_encodings.specs.AnyEncoded.{encoded_values};
ghost use Rattle.cq_encodings_plain.specs.Kind.{StandsFor};
ghost use Rattle.cq_values.specs.declared.value.Value.TheVariants.{Null};

use crate::dict::Dict;
use crate::runs::Runs;
use cq_encodings_numbers::{Deltas, Packed};
use cq_encodings_plain::{Decoded, Encoded, Kind, Plain};
use cq_values::Lent;

/// Values in one of the forms.
#[derive(Drop)]
pub enum AnyEncoded {
    Plain(Plain),
    Runs(Runs),
    Dict(Dict),
    Packed(Packed),
    Deltas(Deltas),
}

impl AnyEncoded {
    /// The number that stands for the value at a place, and its kind. None where it is NULL, and where the values are
    /// not kept as plain numbers.
    #[inline(always)]
    pub fn number_at(&self, place: usize) -> Option<(Kind, i64)>
        ensures { IfSome result (λ n. StandsFor n.0 n.1 (slice_index_or (encoded_values self.now) place Null)) }
    {
        match self {
            AnyEncoded::Plain(Plain::Numbers(numbers)) => numbers.number_at(place),
            _ => None,
        }
    }
}

impl Encoded for AnyEncoded {
    ghost values = { encoded_values };

    fn len(&self) -> usize {
        match self {
            AnyEncoded::Plain(plain) => plain.len(),
            AnyEncoded::Runs(runs) => runs.len(),
            AnyEncoded::Dict(dict) => dict.len(),
            AnyEncoded::Packed(packed) => packed.len(),
            AnyEncoded::Deltas(deltas) => deltas.len(),
        }
    }

    fn value_at(&self, place: usize) -> Lent<'_> {
        match self {
            AnyEncoded::Plain(plain) => plain.value_at(place),
            AnyEncoded::Runs(runs) => runs.value_at(place),
            AnyEncoded::Dict(dict) => dict.value_at(place),
            AnyEncoded::Packed(packed) => packed.value_at(place),
            AnyEncoded::Deltas(deltas) => deltas.value_at(place),
        }
    }

    fn decode_into<'a>(&'a self, start: usize, to: &mut Decoded<'a>) {
        match self {
            AnyEncoded::Plain(plain) => plain.decode_into(start, to),
            AnyEncoded::Runs(runs) => runs.decode_into(start, to),
            AnyEncoded::Dict(dict) => dict.decode_into(start, to),
            AnyEncoded::Packed(packed) => packed.decode_into(start, to),
            AnyEncoded::Deltas(deltas) => deltas.decode_into(start, to),
        }
    }
}
