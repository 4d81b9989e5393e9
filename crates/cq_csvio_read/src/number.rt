//! Numbers as fields spell them.
ghost use Rattle.std.specs.Prelude.{◌*◌, ◌+◌, ◌<◌, ◌≡◌};
ghost use Rattle.cq_binder_rules.specs.Fields.{stored_number, typed_field};
ghost use Rattle.cq_csvio_read.specs.Numbers.{capped, capped_number, signed};
ghost use Rattle.cq_csvio_read.specs.Reading.{value_in};
ghost use Rattle.cq_values.specs.declared.ty.Ty.TheVariants as types;

use cq_binder_rules::Fault;
use cq_model::STORED_SIZE;
use cq_values::Lent;

/// The value of a field in a column of numbers.
pub(crate) fn read_number<'a>(at: u64, field: &[u8]) -> Result<Lent<'a>, Fault>
    ensures { value_in result ≡ typed_field at types.Integer field.now }
{
    let (is_negative, digits) = match field {
        [b'-', digits @ ..] => (true, digits),
        digits => (false, digits),
    };
    match capped_number(digits) {
        Some(magnitude) => stored_number(signed(is_negative, magnitude)),
        None => Err(Fault::BadRecord(at)),
    }
}

/// The number that digits spell, or the greatest of 64 bits in the place of a greater one.
fn capped_number(digits: &[u8]) -> Option<u64>
    ensures { result ≡ capped_number digits.now }
{
    if digits.is_empty() {
        return None;
    }
    let mut number = 0u64;
    for byte in digits {
        if !byte.is_ascii_digit() {
            return None;
        }
        number = with_digit(number, u64::from(*byte - b'0'));
    }
    Some(number)
}

/// The number with a digit more behind it, or the greatest of 64 bits in the place of a greater one.
fn with_digit(number: u64, digit: u64) -> u64
    requires { digit < 10 }
    ensures { result ≡ capped (10 * number + digit) }
{
    if number < u64::MAX / 10 {
        10 * number + digit
    } else {
        number.saturating_mul(10).saturating_add(digit)
    }
}

fn signed(is_negative: bool, magnitude: u64) -> i128
    ensures { result ≡ signed is_negative magnitude }
{
    let number = i128::from(magnitude);
    if is_negative { -number } else { number }
}

fn stored_number<'a>(number: i128) -> Result<Lent<'a>, Fault>
    ensures { value_in result ≡ stored_number number }
{
    let size = STORED_SIZE as i128;
    if -size <= number && number < size {
        Ok(Lent::Number(number))
    } else {
        Err(Fault::NumberOutside)
    }
}
