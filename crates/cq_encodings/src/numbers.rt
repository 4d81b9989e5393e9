//! Which form a column of numbers is kept in, none of which is NULL.
ghost use Rattle.std.specs.List.{AllByRecursion};
ghost use Rattle.std.specs.Prelude.{IfOk, map, ◌≡◌};
ghost use Rattle.cq_encodings.specs.AnyEncoded.{encoded_values};
ghost use Rattle.cq_encodings_plain.specs.Kind.{IsOf, number_values};
ghost use Rattle.cq_values.specs.Lent.{owned};

use crate::any_encoded::AnyEncoded;
use crate::choosing::choose_lent;
use crate::runs::stand_still;
use cq_encodings_numbers::Packed;
use cq_encodings_plain::{Kind, lend_number};
use cq_values::Lent;
use std::alloc::{AllocError, Global};

/// Numbers of a kind in the form that [`choose`](crate::choose) picks for their values, which are lent to it where they
/// are not packed.
pub fn choose_numbers(alloc: Global, kind: Kind, numbers: &[i64]) -> Result<AnyEncoded, AllocError>
    requires { AllByRecursion (IsOf kind) numbers.now }
    ensures { IfOk result (λ encoded. encoded_values encoded ≡ number_values kind numbers.now) }
{
    if !stand_still(numbers, |a, b| a == b) {
        if let Some(packed) = Packed::of_numbers(alloc, kind, numbers)? {
            return Ok(AnyEncoded::Packed(packed));
        }
    }
    let lent = lend_numbers(alloc, kind, numbers)?;
    choose_lent(alloc, &lent)
}

fn lend_numbers<'a>(alloc: Global, kind: Kind, numbers: &[i64]) -> Result<Vec<Lent<'a>>, AllocError>
    ensures { IfOk result (λ lent. map owned lent.items ≡ number_values kind numbers.now) }
{
    let mut lent: Vec<Lent<'a>> = Vec::new(alloc);
    lent.reserve(numbers.len())?;
    for number in numbers {
        lent.push_reserved(lend_number(kind, i128::from(*number)));
    }
    Ok(lent)
}
