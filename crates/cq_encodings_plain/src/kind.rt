//! Numbers and days, which are both kept as numbers.
ghost use Rattle.std.specs.Prelude.{IfSome, false, map, true, ◌≡◌};
ghost use Rattle.std.specs.Bool.{OnTrue};
ghost use Rattle.cq_encodings_plain.specs.Kind.{IsOf, datum, first_kind};
ghost use Rattle.cq_encodings_plain.specs.Parts.{Makes};
ghost use Rattle.cq_encodings_plain.specs.declared.kind.Kind.TheVariants.{Days};
ghost use Rattle.cq_values.specs.Lent.{owned};
ghost use Rattle.cq_values.specs.Value.{is_null};

use cq_values::{Day, Lent};

/// What the numbers of a column stand for.
#[derive(Clone, Copy, Debug, PartialEq, Eq)]
pub enum Kind {
    /// For themselves.
    Numbers,
    /// For the days that have them.
    Days,
}

/// What a number stands for: NULL where it is that of no day, in a column of days.
pub fn lend_number<'a>(kind: Kind, number: i128) -> Lent<'a>
    ensures { owned result ≡ datum kind number false }
{
    match kind {
        Kind::Numbers => Lent::Number(number),
        Kind::Days => match i32::try_from(number) {
            Ok(number) => lend_day(number),
            Err(_) => Lent::Null,
        },
    }
}

/// The same, or NULL where the flag says so.
pub fn lend_unless<'a>(kind: Kind, number: i128, is_null: bool) -> Lent<'a>
    ensures { owned result ≡ datum kind number is_null }
{
    if is_null {
        Lent::Null
    } else {
        lend_number(kind, number)
    }
}

/// Whether the number stands for something of the kind.
pub fn is_of(kind: Kind, number: i64) -> bool
    ensures { OnTrue result (IsOf kind number) }
{
    match kind {
        Kind::Numbers => true,
        Kind::Days => match i32::try_from(number) {
            Ok(number) => Day::new(number).is_some(),
            Err(_) => false,
        },
    }
}

fn lend_day<'a>(number: i32) -> Lent<'a>
    ensures { owned result ≡ datum Days number false }
{
    match Day::new(number) {
        Some(day) => Lent::Day(day),
        None => Lent::Null,
    }
}

/// The number of 64 bits that stands for a value, and any for NULL. None where there is no such number.
pub fn number_of(kind: Kind, value: &Lent<'_>, any: i64) -> Option<i64>
    ensures same { IfSome result (λ number. Makes (datum kind) number value.now) }
    ensures any { IfSome result (λ number. is_null (owned value.now) ≡ true → number ≡ any) }
    ensures kind { IfSome result (λ number. is_null (owned value.now) ≡ false → IsOf kind number) }
{
    match (kind, value) {
        (_, Lent::Null) => Some(any),
        (Kind::Numbers, Lent::Number(number)) => i64::try_from(*number).ok(),
        (Kind::Days, Lent::Day(day)) => match Day::new(day.number()) {
            Some(_) => Some(i64::from(day.number())),
            None => None,
        },
        _ => None,
    }
}

/// What kind the values are of that are not NULL: that of the first one. None where there is none, or it is a text.
pub fn kind_of(values: &[Lent<'_>]) -> Option<Kind>
    ensures { result ≡ first_kind (map owned values.now) }
{
    for value in values {
        match value {
            Lent::Null => {}
            Lent::Number(_) => return Some(Kind::Numbers),
            Lent::Day(_) => return Some(Kind::Days),
            Lent::Text(_) => return None,
        }
    }
    None
}
