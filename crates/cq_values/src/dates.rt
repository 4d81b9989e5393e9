//! Dates as they are written.
ghost use Rattle.std.specs.Prelude.{◌<◌, ◌≡◌, IfErr, IfOk, Some, [], ◌∷◌, codes, false, neg_ℤ, pos, true};
ghost use Rattle.std.specs.List.{list_all};
ghost use Rattle.cq_values.specs.Dates.{TellsDay, day_at, day_named, is_digit, number_of};
ghost use Rattle.cq_values.specs.Days.{IsDay};

use crate::day::Day;
use jiff_core::civil::Date;
use thiserror::Error;

/// Why a text names no day.
#[derive(Clone, Copy, Debug, PartialEq, Eq, Error)]
pub enum DateFault {
    #[error("25 bad date")]
    BadDate,
}

/// The day that a text names, as `2024-02-29` does.
#[tactic(auto, unfolding(crate::specs::Dates::day_named))]
pub fn date_of(text: &str) -> Result<Day, DateFault>
    ensures named { TellsDay (day_named text.now) result }
    ensures range { IfOk result IsDay }
{
    match text.as_bytes() {
        [a, b, c, d, b'-', e, f, b'-', g, h] => {
            let century = two_digits(*a, *b)?;
            let year = u16::from(century) * 100 + u16::from(two_digits(*c, *d)?);
            day_at(year, two_digits(*e, *f)?, two_digits(*g, *h)?)
        }
        _ => Err(DateFault::BadDate),
    }
}

/// 0001-01-01 is the first day, and 9999-12-31 the last.
pub fn calendar_ends()
    ensures first { day_named (codes "0001-01-01") ≡ Some (neg_ℤ (pos 719162)) }
    ensures last { day_named (codes "9999-12-31") ≡ Some (pos 2932896) }
{}

fn two_digits(tens: u8, units: u8) -> Result<u8, DateFault>
    ensures digits { IfOk result (λ n. n ≡ number_of (tens ∷ units ∷ [])) }
    ensures err { IfErr result (λ _. list_all is_digit (tens ∷ units ∷ []) ≡ false) }
    ensures ok { IfOk result (λ _. list_all is_digit (tens ∷ units ∷ []) ≡ true) }
    ensures below { IfOk result (λ n. n < 100) }
{
    if tens.is_ascii_digit() && units.is_ascii_digit() {
        Ok((tens - b'0') * 10 + (units - b'0'))
    } else {
        Err(DateFault::BadDate)
    }
}

fn day_at(year: u16, month: u8, day: u8) -> Result<Day, DateFault>
    requires { (year < 10_000) × (month < 100) × (day < 100) }
    ensures named { TellsDay (day_at year month day) result }
    ensures range { IfOk result IsDay }
{
    match Date::new(year as i16, month as i8, day as i8) {
        Ok(date) => Day::new(date.to_unix_epoch_day()).ok_or(DateFault::BadDate),
        Err(_) => Err(DateFault::BadDate),
    }
}
