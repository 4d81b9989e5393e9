//! Parts of the days of a vector.
ghost use Rattle.std.specs.Prelude.{IfOk, map, pos, ◌≡◌, ◌≤◌};
ghost use Rattle.cq_values.specs.Lent.{owned};
ghost use Rattle.cq_model.specs.Eval.{extracted, part_of};
ghost use Rattle.cq_model.specs.Group.{addend};
ghost use Rattle.cq_prims_arithmetic.specs.Operation.{no_number};

use cq_values::{Day, DayPart, Lent};
use cq_vectors::{Buffers, Form, Numbers, Vector};
use cq_vectors_masks::Plane;
use std::alloc::{AllocError, Global};

/// The year, the month or the day of the month, place by place.
pub fn extract<'a>(
    alloc: Global,
    buffers: &mut Buffers,
    part: DayPart,
    a: &Vector<'_>,
) -> Result<Vector<'a>, AllocError>
    ensures { IfOk result (λ made. made ≡ map (extracted part) a.now) }
{
    match a.form() {
        Form::Constant(value, len) => {
            let value = part_of_value(part, value);
            Ok(Vector::new(Form::Constant(value, *len)))
        }
        _ => parts_by_places(alloc, buffers, part, a),
    }
}

fn parts_by_places<'a>(
    alloc: Global,
    buffers: &mut Buffers,
    part: DayPart,
    a: &Vector<'_>,
) -> Result<Vector<'a>, AllocError>
    ensures { IfOk result (λ made. made ≡ map (extracted part) a.now) }
{
    let len = a.len();
    let mut values = buffers.numbers(alloc);
    let mut nulls = Plane::new();
    values.reserve(len)?;
    for i in 0..len {
        let (number, null) = part_at(part, &a.lend(i));
        values.push_reserved(number);
        nulls.push(null);
    }
    Ok(Vector::new(Form::Numbers(Numbers::new(values, nulls))))
}

/// The part of a value, which is NULL where it is no day.
fn part_of_value<'a>(part: DayPart, value: &Lent<'_>) -> Lent<'a>
    ensures { owned result ≡ extracted part (owned value.now) }
{
    match value {
        Lent::Day(day) => Lent::Number(i128::from(part_of_day(part, *day))),
        _ => Lent::Null,
    }
}

/// The part and whether it is NULL. A NULL has the number 0.
fn part_at(part: DayPart, value: &Lent<'_>) -> (i64, bool)
    ensures number { result.0 ≡ addend (extracted part (owned value.now)) }
    ensures null { result.1 ≡ no_number (extracted part (owned value.now)) }
{
    match value {
        Lent::Day(day) => (part_of_day(part, *day), false),
        _ => (0, true),
    }
}

fn part_of_day(part: DayPart, day: Day) -> i64
    ensures { result ≡ pos (part_of part day) }
{
    let date = day.date();
    match part {
        DayPart::Year => i64::from(date.year),
        DayPart::Month => i64::from(date.month),
        DayPart::Day => i64::from(date.day),
    }
}
