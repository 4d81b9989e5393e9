//! Texts and values as fields.
ghost use Rattle.std.specs.Prelude.{◌≡◌, List, OnOk, ℕ};
ghost use Rattle.std.specs.Fmt.{signed_decimal};
ghost use Rattle.cq_csvio.specs.Lines.{Adds};
ghost use Rattle.cq_values.specs.Lent.{owned};
ghost use Rattle.cq_values.specs.Printed.{date_text, two_digits, value_text};

use crate::fault::TextFault;
use crate::lines::Lines;
use cq_values::{Day, Lent, Text};
use itoa::Buffer;

/// What can be printed as a field of a line.
pub trait Field {
    ghost text: { Self → List ℕ };

    /// Adds the field to the line that is written.
    fn add_to(&self, lines: &mut Lines) -> Result<(), TextFault>
        ensures { OnOk result (Adds (text self.now) lines.old lines.new) };
}

impl Field for Text {
    ghost text = { λ t. t };

    fn add_to(&self, lines: &mut Lines) -> Result<(), TextFault> {
        lines.add(self.as_str().as_bytes())
    }
}

impl Field for Lent<'_> {
    ghost text = { λ v. value_text (owned v) };

    #[inline]
    fn add_to(&self, lines: &mut Lines) -> Result<(), TextFault> {
        match self {
            Lent::Number(n) => add_number(lines, *n),
            Lent::Day(day) => lines.add(&date_bytes(*day)),
            // A text that begins with a backslash gets one more, so that it is not taken for NULL.
            Lent::Text(text) => match text.as_bytes() {
                bytes @ [b'\\', ..] => lines.add_escaped(bytes),
                bytes => lines.add(bytes),
            },
            Lent::Null => lines.add(b"\\N"),
        }
    }
}

/// Most numbers fit 64 bits, and are printed faster there.
fn add_number(lines: &mut Lines, n: i128) -> Result<(), TextFault>
    ensures { OnOk result (Adds (signed_decimal n) lines.old lines.new) }
{
    let mut buffer = Buffer::new();
    match i64::try_from(n) {
        Ok(small) => lines.add(buffer.format(small).as_bytes()),
        Err(_) => lines.add(buffer.format(n).as_bytes()),
    }
}

#[tactic(auto, unfolding(cq_values::specs::Printed::date_text))]
fn date_bytes(day: Day) -> [u8; 10]
    ensures { result ≡ date_text day }
{
    let date = day.date();
    let [thousands, hundreds] = two_digits((date.year / 100) as u8);
    let [tens, ones] = two_digits((date.year % 100) as u8);
    let month = two_digits(date.month);
    let day = two_digits(date.day);
    [
        thousands, hundreds, tens, ones, b'-', month[0], month[1], b'-', day[0], day[1],
    ]
}

fn two_digits(n: u8) -> [u8; 2]
    ensures { result ≡ two_digits n }
{
    [b'0' + n / 10, b'0' + n % 10]
}
