//! Numbers that rise, so that the steps between them are small.
use cq_encodings_plain::{Kind, number_of};
use cq_values::Lent;

/// Whether the numbers of a kind that are there rise, by less than 2^16 from each to the next.
pub(crate) fn rise_slowly(kind: Kind, values: &[Lent<'_>]) -> bool {
    let mut last = None;
    for value in values {
        if value.is_null() {
            continue;
        }
        let Some(number) = number_of(kind, value, 0) else {
            return false;
        };
        if !is_next(last, number) {
            return false;
        }
        last = Some(number);
    }
    true
}

/// Whether a number is no less than the one before it, if there is one, and less than 2^16 above.
fn is_next(last: Option<i64>, number: i64) -> bool {
    match last {
        Some(last) => {
            let step = i128::from(number) - i128::from(last);
            0 <= step && step < 1 << 16
        }
        None => true,
    }
}
