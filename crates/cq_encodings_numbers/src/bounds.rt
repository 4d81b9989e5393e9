//! The bounds of values, and what finds those of numbers.
use cq_encodings_plain::{Kind, number_of};
use cq_values::Lent;

/// What is known of values without a look at them: those of marked rows count too.
#[derive(Clone, Copy)]
pub struct Bounds<'a> {
    /// Whether NULL is there.
    pub has_null: bool,
    /// The least and the greatest value that is not NULL, where there is one.
    pub ends: Option<(Lent<'a>, Lent<'a>)>,
}

/// The least and the greatest number of a kind that is there. None where a value is neither NULL nor such a number.
pub(crate) fn bounds_of(kind: Kind, values: &[Lent<'_>]) -> Option<(i64, i64)> {
    let (mut least, mut greatest) = (i64::MAX, i64::MIN);
    for value in values {
        if value.is_null() {
            continue;
        }
        let number = number_of(kind, value, 0)?;
        least = least.min(number);
        greatest = greatest.max(number);
    }
    Some((least, greatest))
}

/// The least and the greatest of some numbers.
pub(crate) fn ends_of(numbers: &[i64]) -> (i64, i64) {
    let (mut least, mut greatest) = (i64::MAX, i64::MIN);
    for number in numbers {
        least = least.min(*number);
        greatest = greatest.max(*number);
    }
    (least, greatest)
}
