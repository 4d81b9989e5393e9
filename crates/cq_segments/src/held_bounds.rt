//! The bounds of a column that a segment keeps.
//!
//! They are made once of all values, and `lend` hands them out. To make them costs two comparisons a value, and two
//! copies in all.
ghost use Rattle.std.specs.Prelude.{IfOk, Some, length, map, ◌<◌, ◌≡◌};
ghost use Rattle.cq_model.specs.Group.{higher, lower};
ghost use Rattle.cq_encodings_numbers.specs.Bounds.{AreBounds, ends_of};
ghost use Rattle.cq_segments.specs.Bounds.{AreWidened, AreWithin, ends_at, lent_ends, value_at};
ghost use Rattle.cq_values.specs.Lent.{owned};

use cq_encodings_numbers::Bounds;
use cq_values::{Lent, Value, cmp_lent};
use std::alloc::{AllocError, Global};

/// Whether NULL is there, and the least and the greatest value that is not NULL.
#[derive(Drop)]
pub(crate) struct HeldBounds {
    pub(crate) has_null: bool,
    pub(crate) ends: Option<(Value, Value)>,
}

impl HeldBounds {
    /// The bounds of these values.
    pub fn of(alloc: Global, values: &[Lent<'_>]) -> Result<HeldBounds, AllocError>
        ensures { IfOk result (λ b. AreBounds b.has_null b.ends (map owned values.now)) }
    {
        let (has_null, places) = find_ends(values);
        let ends = copy_ends(alloc, values, &places)?;
        Ok(HeldBounds { has_null, ends })
    }

    pub fn lend(&self) -> Bounds<'_>
        ensures null { result.has_null ≡ self.now.has_null }
        ensures ends { ends_of result ≡ self.now.ends }
    {
        let ends = match &self.ends {
            Some((least, greatest)) => Some((least.lend(), greatest.lend())),
            None => None,
        };
        Bounds {
            has_null: self.has_null,
            ends,
        }
    }
}

/// The places of the least and of the greatest value that is not NULL.
type Places = Option<(usize, usize)>;

/// Whether NULL is there, and where the least and the greatest value stand.
fn find_ends(values: &[Lent<'_>]) -> (bool, Places)
    ensures bounds { AreBounds result.0 (lent_ends result.1 values.now) (map owned values.now) }
    ensures within { AreWithin (length values.now) result.1 }
{
    let mut has_null = false;
    let mut places = None;
    for place in 0..values.len() {
        if values[place].is_null() {
            has_null = true;
        } else {
            places = Some(wider(values, &places, place));
        }
    }
    (has_null, places)
}

/// The places of the ends with the value of a place more.
fn wider(values: &[Lent<'_>], places: &Places, place: usize) -> (usize, usize)
    requires within { AreWithin (length values.now) places.now }
    requires there { place < length values.now }
    ensures ends { AreWidened values.now places.now place result }
    ensures within { AreWithin (length values.now) (Some result) }
{
    match places {
        Some((least, greatest)) => (
            lesser(values, *least, place),
            greater(values, *greatest, place),
        ),
        None => (place, place),
    }
}

fn lesser(lent: &[Lent<'_>], a: usize, b: usize) -> usize
    requires a { a < length lent.now }
    requires b { b < length lent.now }
    ensures value { value_at lent.now result ≡ lower (value_at lent.now a) (value_at lent.now b) }
    ensures within { result < length lent.now }
{
    if cmp_lent(&lent[a], &lent[b]).is_gt() {
        b
    } else {
        a
    }
}

fn greater(lent: &[Lent<'_>], a: usize, b: usize) -> usize
    requires a { a < length lent.now }
    requires b { b < length lent.now }
    ensures value { value_at lent.now result ≡ higher (value_at lent.now a) (value_at lent.now b) }
    ensures within { result < length lent.now }
{
    if cmp_lent(&lent[a], &lent[b]).is_gt() {
        a
    } else {
        b
    }
}

fn copy_ends(
    alloc: Global,
    values: &[Lent<'_>],
    places: &Places,
) -> Result<Option<(Value, Value)>, AllocError>
    requires { AreWithin (length values.now) places.now }
    ensures { IfOk result (λ ends. ends ≡ ends_at places.now (map owned values.now)) }
{
    match places {
        Some((least, greatest)) => {
            let least = values[*least].to_value(alloc)?;
            Ok(Some((least, values[*greatest].to_value(alloc)?)))
        }
        None => Ok(None),
    }
}
