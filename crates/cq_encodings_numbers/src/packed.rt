//! Numbers or days that lie close together.
ghost use Rattle.std.specs.List.{AllByRecursion};
ghost use Rattle.std.specs.Prelude.{IfOk, IfSome, drop, map, pos, take, ◌*◌, ◌+ℤ◌, ◌≡◌};
ghost use Rattle.std.specs.Simd.Lanes.{zip2};
ghost use Rattle.cq_encodings_numbers.specs.Bounds.{AreBoundsOf, owned_ends};
ghost use Rattle.cq_encodings_plain.specs.Kind.{IsOf, datum, number_values};
ghost use Rattle.cq_encodings_plain.specs.PackedNumbers.{numbers_in};
ghost use Rattle.cq_encodings_numbers.specs.Ends.{ends_above};
ghost use Rattle.cq_encodings_numbers.specs.Packed.{AreOffsets, above};
ghost use Rattle.cq_values.specs.Lent.{owned};

use crate::bounds::{Bounds, bounds_of, ends_of};
use crate::distances::distances_at;
use crate::ends::{PartEnds, ends_of_parts};
use crate::offsets::offsets_at;
use cq_encodings_plain::{
    Encoded, Kind, Nulls, PackedNumbers, Widths, is_of, kind_of, lend_number, width_up_to,
};
use cq_values::Lent;
use std::alloc::{AllocError, Global};
use std::marker::Model;

/// Numbers or days as offsets from the least of them, and flags where NULL stands: there the offset is 0.
#[derive(Drop)]
pub struct Packed {
    kind: Kind,
    least: i64,
    offsets: PackedNumbers,
    nulls: Nulls,
    /// What is known of each 1,024 offsets.
    ends: Vec<PartEnds>,
}

impl Model for Packed {
    ghost use Rattle.std.specs.Prelude.{List};
    ghost use Rattle.std.specs.Simd.Lanes.{zip2};
    ghost use Rattle.cq_encodings_plain.specs.Kind.{datum};
    ghost use Rattle.cq_encodings_numbers.specs.Packed.{IsPacked, above};
    ghost use Rattle.cq_values.specs.declared.value.Value.{Value as Datum};

    ghost Value = { List Datum };

    ghost view = { λ p. zip2 (datum p.kind) (above p.least p.offsets) p.nulls };

    ghost invariant = { λ p. IsPacked p.kind p.least p.offsets p.nulls p.ends.items };
}

impl Packed {
    /// None where one of the values is neither NULL nor of the kind of the others, or is no number of 64 bits.
    pub fn of(alloc: Global, values: &[Lent<'_>]) -> Result<Option<Packed>, AllocError>
        ensures { IfOk result (λ found. IfSome found (λ packed. packed ≡ map owned values.now)) }
    {
        let Some(kind) = kind_of(values) else {
            return Ok(None);
        };
        match bounds_of(kind, values) {
            Some((least, greatest)) => packed_between(alloc, values, kind, least, greatest),
            None => Ok(None),
        }
    }

    /// Values that are NULL or numbers of a kind. None where another value is among them, or they lie 2^32 apart or more.
    pub fn of_close(
        alloc: Global,
        kind: Kind,
        values: &[Lent<'_>],
    ) -> Result<Option<Packed>, AllocError>
        ensures { IfOk result (λ found. IfSome found (λ packed. packed ≡ map owned values.now)) }
    {
        match bounds_of(kind, values) {
            Some((least, greatest)) if are_close(least, greatest) => {
                packed_between(alloc, values, kind, least, greatest)
            }
            _ => Ok(None),
        }
    }

    /// Numbers of a kind, none of which is NULL. None where they lie 2^32 apart or more.
    pub fn of_numbers(
        alloc: Global,
        kind: Kind,
        numbers: &[i64],
    ) -> Result<Option<Packed>, AllocError>
        requires { AllByRecursion (IsOf kind) numbers.now }
        ensures { IfOk result (λ found. IfSome found (λ packed. packed ≡ number_values kind numbers.now)) }
    {
        let (least, greatest) = ends_of(numbers);
        if !are_close(least, greatest) || !is_of(kind, least) {
            return Ok(None);
        }
        let width = width_up_to(greatest.wrapping_sub(least).cast_unsigned());
        let Some(widths) = distances_at(alloc, least, numbers, width)? else {
            return Ok(None);
        };
        let nulls = Nulls::clear(alloc, numbers.len())?;
        Ok(Some(Packed::with_ends(alloc, kind, least, widths, nulls)?))
    }

    /// Offsets above a least number.
    fn with_ends(
        alloc: Global,
        kind: Kind,
        least: i64,
        widths: Widths,
        nulls: Nulls,
    ) -> Result<Packed, AllocError>
        requires { AreOffsets kind least (numbers_in widths) nulls }
        ensures { IfOk result (λ packed. packed ≡ zip2 (datum kind) (above least (numbers_in widths)) nulls) }
    {
        let offsets = PackedNumbers::from_widths(widths);
        let ends = ends_of_parts(alloc, &offsets, &nulls)?;
        Ok(Packed {
            kind,
            least,
            offsets,
            nulls,
            ends,
        })
    }

    /// The bounds of a part of 1,024 values. Past the end there are no values.
    pub fn part_bounds(&self, part: usize) -> Bounds<'_>
        ensures { AreBoundsOf result (take 1024 (drop (1024 * part) self.now)) }
    {
        match self.ends.get(part) {
            Some(known) => Bounds {
                has_null: known.has_null,
                ends: lend_ends(self.kind, self.least, known.ends),
            },
            None => Bounds {
                has_null: false,
                ends: None,
            },
        }
    }

    /// The kind, the least number, the offsets and the flags, for loops: the offset is 0 where NULL stands.
    pub fn parts(&self) -> (Kind, i64, &PackedNumbers, &Nulls)
        ensures whole { self.now ≡ zip2 (datum result.0) (above result.1 result.2.now) result.3.now }
        ensures parts { AreOffsets result.0 result.1 result.2.now result.3.now }
    {
        (self.kind, self.least, &self.offsets, &self.nulls)
    }
}

impl Encoded for Packed {
    ghost values = { λ p. p };

    fn len(&self) -> usize {
        self.offsets.len()
    }

    fn value_at(&self, place: usize) -> Lent<'_> {
        if place >= self.offsets.len() || self.nulls.at(place) {
            return Lent::Null;
        }
        let number = raised(self.least, self.offsets.at(place));
        lend_number(self.kind, number)
    }
}

/// Whether numbers lie less than 2^32 apart.
fn are_close(least: i64, greatest: i64) -> bool {
    i128::from(greatest) - i128::from(least) < 1 << 32
}

/// The ends that lie so far above the least number.
fn lend_ends<'a>(kind: Kind, least: i64, ends: Option<(u64, u64)>) -> Option<(Lent<'a>, Lent<'a>)>
    ensures { owned_ends result ≡ ends_above kind least ends }
{
    match ends {
        Some((low, high)) => {
            let first = lend_number(kind, raised(least, low));
            Some((first, lend_number(kind, raised(least, high))))
        }
        None => None,
    }
}

/// The number that lies so far above the least one.
fn raised(least: i64, offset: u64) -> i128
    ensures { result ≡ least +ℤ pos offset }
{
    i128::from(least) + i128::from(offset)
}

/// The numbers from the least to the greatest one, which are those that are there.
fn packed_between(
    alloc: Global,
    values: &[Lent<'_>],
    kind: Kind,
    least: i64,
    greatest: i64,
) -> Result<Option<Packed>, AllocError>
    ensures { IfOk result (λ found. IfSome found (λ packed. packed ≡ map owned values.now)) }
{
    if !is_of(kind, least) {
        return Ok(None);
    }
    let width = width_up_to(greatest.wrapping_sub(least).cast_unsigned());
    let Some((widths, any_null)) = offsets_at(alloc, kind, least, values, width)? else {
        return Ok(None);
    };
    let nulls = Nulls::where_any(alloc, values, any_null)?;
    Ok(Some(Packed::with_ends(alloc, kind, least, widths, nulls)?))
}
