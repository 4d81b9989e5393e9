//! What each encoding is: a list of values that is read in place.
//!
//! An encoding is made whole from a list of values and does not change. Readers take no memory and do not fail. Texts are
//! lent by the encoding.
ghost use Rattle.std.specs.Prelude.{List, drop, length, slice_index_or, take, ◌≡◌};
ghost use Rattle.cq_values.specs.Lent.{owned};
ghost use Rattle.cq_values.specs.declared.value.Value.TheVariants.{Null};
ghost use Rattle.cq_values.specs.declared.value.Value.{Value as Datum};

use crate::decoded::Decoded;
use cq_values::Lent;

/// A list of values in some form.
pub trait Encoded {
    /// The list.
    ghost values: { Self → List Datum };

    fn len(&self) -> usize
        ensures { result ≡ length (values self.now) };

    /// The value at a place, and NULL past the end.
    fn value_at(&self, place: usize) -> Lent<'_>
        ensures { owned result ≡ slice_index_or (values self.now) place Null };

    /// Reads the values from a place on, 1,024 of them or as many as are left, in place of those that were read before.
    fn decode_into<'a>(&'a self, start: usize, to: &mut Decoded<'a>)
        ensures { to.new ≡ take 1024 (drop start (values self.now)) }
    {
        let end = self.len().min(start.saturating_add(1024));
        let values = &mut to.values;
        values.clear();
        for place in start..end {
            values.push_reserved(self.value_at(place));
        }
    }
}
