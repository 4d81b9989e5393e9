//! Numbers or days that rise slowly.
//!
//! Reading at a place takes the steps from the last number of 1,024 that is kept; reading a vector takes each step once.
ghost use Rattle.std.specs.Prelude.{[], IfOk, IfSome, drop, length, map, take, ◌++◌, ◌<◌, ◌∷◌, ◌≡◌};
ghost use Rattle.std.specs.Simd.Lanes.{zip2};
ghost use Rattle.cq_encodings_numbers.specs.Deltas.{AreBitsOf, bits_datum};
ghost use Rattle.cq_encodings_plain.specs.Parts.{Makes};
ghost use Rattle.cq_values.specs.Lent.{owned};

use crate::steps::Steps;
use cq_encodings_plain::{Decoded, Encoded, Kind, Nulls, kind_of, lend_unless, number_of};
use cq_values::Lent;
use std::alloc::{AllocError, Global};
use std::marker::Model;

/// Numbers or days as the steps to each from the one before it, and flags where NULL stands: there the number is the one
/// before it.
#[derive(Drop)]
pub struct Deltas {
    kind: Kind,
    numbers: Steps,
    nulls: Nulls,
}

impl Model for Deltas {
    ghost use Rattle.std.specs.Prelude.{List, length, ◌≡◌};
    ghost use Rattle.std.specs.Simd.Lanes.{zip2};
    ghost use Rattle.cq_encodings_numbers.specs.Deltas.{bits_datum};
    ghost use Rattle.cq_values.specs.declared.value.Value.{Value as Datum};

    ghost Value = { List Datum };

    ghost view = { λ d. zip2 (bits_datum d.kind) d.numbers d.nulls };

    ghost invariant = { λ d. length d.nulls ≡ length d.numbers };
}

impl Deltas {
    /// None where one of the values is neither NULL nor of the kind of the others, or is no number of 64 bits.
    pub fn of(alloc: Global, values: &[Lent<'_>]) -> Result<Option<Deltas>, AllocError>
        ensures { IfOk result (λ found. IfSome found (λ deltas. deltas ≡ map owned values.now)) }
    {
        let Some(kind) = kind_of(values) else {
            return Ok(None);
        };
        let Some(numbers) = bits_of_values(alloc, values, kind)? else {
            return Ok(None);
        };
        let nulls = Nulls::of(alloc, values)?;
        Ok(Some(Deltas {
            kind,
            numbers: Steps::of(alloc, &numbers)?,
            nulls,
        }))
    }
}

impl Encoded for Deltas {
    ghost values = { λ d. d };

    fn len(&self) -> usize {
        self.numbers.len()
    }

    fn value_at(&self, place: usize) -> Lent<'_> {
        if place >= self.numbers.len() {
            return Lent::Null;
        }
        lend_bits(self.kind, self.numbers.at(place), self.nulls.at(place))
    }

    fn decode_into<'a>(&'a self, start: usize, to: &mut Decoded<'a>) {
        decode_from(self.kind, &self.numbers, &self.nulls, start, to);
    }
}

/// Reads the values from a place on, 1,024 of them or as many as are left, in place of those that were read before.
fn decode_from(kind: Kind, numbers: &Steps, nulls: &Nulls, start: usize, to: &mut Decoded<'_>)
    requires { length nulls.now ≡ length numbers.now }
    ensures { to.new ≡ take 1024 (drop start (zip2 (bits_datum kind) numbers.now nulls.now)) }
{
    to.clear();
    let len = numbers.len();
    if start >= len {
        return;
    }
    let end = len.min(start.saturating_add(1024));
    let mut number = numbers.at(start);
    for place in start..end {
        push_bits(to, kind, number, nulls.at(place));
        number = numbers.following(place, number);
    }
}

/// What the bits of a number stand for, or NULL where the flag says so.
fn lend_bits<'a>(kind: Kind, number: u64, is_null: bool) -> Lent<'a>
    ensures { owned result ≡ bits_datum kind number is_null }
{
    lend_unless(kind, i128::from(number.cast_signed()), is_null)
}

fn push_bits(to: &mut Decoded<'_>, kind: Kind, number: u64, is_null: bool)
    requires { length to.old < 1024 }
    ensures { to.new ≡ to.old ++ bits_datum kind number is_null ∷ [] }
{
    to.push_number(kind, i128::from(number.cast_signed()), is_null);
}

/// The bits of the number that stands for a value, and any for NULL. None where there is no such number.
fn bits_of(kind: Kind, value: &Lent<'_>, any: u64) -> Option<u64>
    ensures { IfSome result (λ number. Makes (bits_datum kind) number value.now) }
{
    match number_of(kind, value, any.cast_signed()) {
        Some(number) => Some(number.cast_unsigned()),
        None => None,
    }
}

/// The bits of the numbers that stand for values; for NULL those of the one before it, or of the first that is there.
fn bits_of_values(
    alloc: Global,
    values: &[Lent<'_>],
    kind: Kind,
) -> Result<Option<Vec<u64>>, AllocError>
    ensures { IfOk result (λ found. IfSome found (λ numbers. AreBitsOf kind numbers.items values.now)) }
{
    let mut numbers = Vec::new(alloc);
    numbers.reserve(values.len())?;
    let mut last = first_bits(kind, values);
    for value in values {
        match bits_of(kind, value, last) {
            Some(number) => {
                numbers.push_reserved(number);
                last = number;
            }
            None => return Ok(None),
        }
    }
    Ok(Some(numbers))
}

/// The bits of the first number that is there.
fn first_bits(kind: Kind, values: &[Lent<'_>]) -> u64 {
    for value in values {
        if !value.is_null() {
            return bits_of(kind, value, 0).unwrap_or(0);
        }
    }
    0
}
