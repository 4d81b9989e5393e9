//! Days by their number.
ghost use Rattle.std.specs.Prelude.{◌↔◌, ◌≡◌, ◌≤◌, IfSome, IsSome};
ghost use Rattle.cq_values.specs.Days.{IsDay, day_of_month, month_of, year_of};
ghost use Rattle.jiff_core.specs.Date.{epoch_day};

use jiff_core::civil::Date;
use std::marker::Model;

/// A day from 0001-01-01 to 9999-12-31, which contracts see as its number: 1970-01-01 is 0.
#[derive(Clone, Copy, Debug, PartialEq, Eq, PartialOrd, Ord, Hash)]
pub struct Day {
    number: i32,
}

impl Model for Day {
    ghost use Rattle.std.specs.Prelude.{ℤ};
    ghost use Rattle.cq_values.specs.Days.{IsDay};

    ghost Value = { ℤ };

    ghost view = { λ d. d.number };

    ghost invariant = { λ d. IsDay d.number };

    ghost inverse = { λ n. record { number = n } };
}

/// A day as its year from 1, its month from 1 to 12, and its place in the month from 1.
#[derive(Clone, Copy, Debug, PartialEq, Eq)]
pub struct CivilDay {
    pub year: u16,
    pub month: u8,
    pub day: u8,
}

impl Day {
    /// The day of this number, or None where no day from 0001-01-01 to 9999-12-31 has it.
    pub fn new(number: i32) -> Option<Day>
        ensures range { IsSome result ↔ IsDay number }
        ensures value { IfSome result (λ d. d ≡ number) }
    {
        if -719_162 <= number && number <= 2_932_896 {
            Some(Day { number })
        } else {
            None
        }
    }

    pub fn number(self) -> i32
        ensures { result ≡ self }
    {
        self.number
    }

    /// The date by the Gregorian calendar, also before it was introduced.
    #[tactic(auto, using(crate::proofs::Calendar::year_of_epoch_day, crate::proofs::Calendar::month_of_epoch_day, crate::proofs::Calendar::day_of_epoch_day))]
    pub fn date(self) -> CivilDay
        ensures year { result.year ≡ year_of self }
        ensures month { result.month ≡ month_of self }
        ensures day { result.day ≡ day_of_month self }
        ensures four_digits { result.year ≤ 9999 }
        ensures twelve_months { result.month ≤ 12 }
        ensures longest_month { result.day ≤ 31 }
    {
        let date = date_of(self.number);
        CivilDay {
            year: date.year.unsigned_abs(),
            month: date.month,
            day: date.day,
        }
    }
}

fn date_of(number: i32) -> Date
    requires { IsDay number }
    ensures { epoch_day result ≡ number }
{
    match Date::from_unix_epoch_day(i64::from(number)) {
        Ok(date) => date,
        Err(_) => unreachable!(),
    }
}
