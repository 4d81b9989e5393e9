//! The bounds of a column of numbers or days, none of which is NULL.
ghost use Rattle.std.specs.List.{AllByRecursion};
ghost use Rattle.std.specs.Option.{IfNone};
ghost use Rattle.std.specs.Prelude.{IfOk, IfSome, Some, [], false, ◌≡◌};
ghost use Rattle.cq_encodings_plain.specs.Kind.{IsOf, datum, number_values};
ghost use Rattle.cq_model.specs.Group.{higher, lower};
ghost use Rattle.cq_encodings_numbers.specs.Bounds.{AreBounds};
ghost use Rattle.cq_segments.specs.Numbers.{AreEnds};
ghost use Rattle.cq_values.specs.declared.value.Value.TheVariants.{Day, Number};

use crate::held_bounds::HeldBounds;
use cq_encodings_plain::{Kind, lend_number};
use cq_values::Value;
use std::alloc::{AllocError, Global};

/// The bounds of numbers of a kind.
pub(crate) fn bounds_of_numbers(
    alloc: Global,
    kind: Kind,
    numbers: &[i64],
) -> Result<HeldBounds, AllocError>
    requires { AllByRecursion (IsOf kind) numbers.now }
    ensures { IfOk result (λ b. AreBounds b.has_null b.ends (number_values kind numbers.now)) }
{
    let Some((least, greatest)) = ends_of(kind, numbers) else {
        return Ok(HeldBounds {
            has_null: false,
            ends: None,
        });
    };
    let ends = Some((
        value_of(alloc, kind, least)?,
        value_of(alloc, kind, greatest)?,
    ));
    Ok(HeldBounds {
        has_null: false,
        ends,
    })
}

/// What a number stands for.
fn value_of(alloc: Global, kind: Kind, number: i64) -> Result<Value, AllocError>
    ensures { IfOk result (λ value. value ≡ datum kind number false) }
{
    lend_number(kind, i128::from(number)).to_value(alloc)
}

/// The least and the greatest of numbers of a kind.
fn ends_of(kind: Kind, numbers: &[i64]) -> Option<(i64, i64)>
    requires { AllByRecursion (IsOf kind) numbers.now }
    ensures some { IfSome result (λ e. AreEnds kind e.0 e.1 (number_values kind numbers.now)) }
    ensures none { IfNone result (numbers.now ≡ []) }
{
    let first = *numbers.first()?;
    let (mut least, mut greatest) = (first, first);
    for i in 1..numbers.len() {
        let number = numbers[i];
        least = lesser(least, number);
        greatest = greater(greatest, number);
    }
    Some((least, greatest))
}

#[inline(always)]
fn lesser(a: i64, b: i64) -> i64
    ensures number { Number result ≡ lower (Number a) (Number b) }
    ensures day { Day result ≡ lower (Day a) (Day b) }
{
    if a > b { b } else { a }
}

#[inline(always)]
fn greater(a: i64, b: i64) -> i64
    ensures number { Number result ≡ higher (Number a) (Number b) }
    ensures day { Day result ≡ higher (Day a) (Day b) }
{
    if a > b { a } else { b }
}
