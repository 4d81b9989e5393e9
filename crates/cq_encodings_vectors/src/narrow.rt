//! The narrowest form that holds values that are lent.
ghost use Rattle.std.specs.Int.{w32, w64, w128};
ghost use Rattle.std.specs.Option.{IfNone};
ghost use Rattle.std.specs.Prelude.{FitsSigned, IfOk, IfSome, length, map, replicate, ◌≡◌, ◌≤◌};
ghost use Rattle.cq_model.specs.Condition.{is_null};
ghost use Rattle.cq_values.specs.Lent.{owned};
ghost use Rattle.cq_values.specs.Order.{bytes, number};
ghost use Rattle.cq_values.specs.declared.value.Value.TheVariants.{Null};
ghost use Rattle.cq_vectors.specs.Form.{values_in};
ghost use Rattle.cq_vectors.specs.Gathered.{IsDate, IsNumber, IsText};

use cq_values::{Day, Lent};
use cq_vectors::{Days, Form, Numbers, Texts, WideNumbers};
use cq_vectors_masks::Plane;
use std::alloc::{AllocError, Global};

/// The narrowest form that holds the values.
pub fn narrowed<'a>(alloc: Global, lent: Vec<Lent<'a>>) -> Result<Form<'a>, AllocError>
    requires { length lent.items ≤ 1024 }
    ensures { IfOk result (λ form. values_in form ≡ map owned lent.entry.items) }
{
    match of_one_kind(alloc, lent.as_slice())? {
        Some(form) => Ok(form),
        None => Ok(Form::Values(lent)),
    }
}

/// The same, where the values stay in the hands of the caller.
pub(crate) fn narrowed_copy<'a>(alloc: Global, lent: &[Lent<'a>]) -> Result<Form<'a>, AllocError>
    requires { length lent.now ≤ 1024 }
    ensures { IfOk result (λ form. values_in form ≡ map owned lent.now) }
{
    match of_one_kind(alloc, lent)? {
        Some(form) => Ok(form),
        None => {
            let mut copied: Vec<Lent<'a>> = Vec::new(alloc);
            copied.extend_from_slice(lent)?;
            Ok(Form::Values(copied))
        }
    }
}

/// A form that holds values of one kind, or None where they are of several.
fn of_one_kind<'a>(alloc: Global, lent: &[Lent<'a>]) -> Result<Option<Form<'a>>, AllocError>
    requires { length lent.now ≤ 1024 }
    ensures { IfOk result (λ found. IfSome found (λ form. values_in form ≡ map owned lent.now)) }
{
    match first_value(lent) {
        None => Ok(Some(Form::Constant(Lent::Null, lent.len()))),
        Some(Lent::Number(_)) => of_numbers(alloc, lent),
        Some(Lent::Day(_)) => match days(alloc, lent)? {
            Some(days) => Ok(Some(Form::Days(days))),
            None => Ok(None),
        },
        Some(_) => match texts(alloc, lent)? {
            Some(texts) => Ok(Some(Form::Texts(texts))),
            None => Ok(None),
        },
    }
}

fn of_numbers<'a>(alloc: Global, lent: &[Lent<'a>]) -> Result<Option<Form<'a>>, AllocError>
    requires { length lent.now ≤ 1024 }
    ensures { IfOk result (λ found. IfSome found (λ form. values_in form ≡ map owned lent.now)) }
{
    if let Some(numbers) = numbers(alloc, lent)? {
        return Ok(Some(Form::Numbers(numbers)));
    }
    match wide_numbers(alloc, lent)? {
        Some(numbers) => Ok(Some(Form::Wide(numbers))),
        None => Ok(None),
    }
}

/// The first value that is not NULL.
fn first_value<'a, 'b>(lent: &'b [Lent<'a>]) -> Option<&'b Lent<'a>>
    ensures { IfNone result (map owned lent.now ≡ replicate (length lent.now) Null) }
{
    for value in lent {
        match value {
            Lent::Null => {}
            _ => return Some(value),
        }
    }
    None
}

/// The numbers, or None where a value is no number of 64 bits.
fn numbers(alloc: Global, lent: &[Lent<'_>]) -> Result<Option<Numbers>, AllocError>
    requires { length lent.now ≤ 1024 }
    ensures { IfOk result (λ found. IfSome found (λ c. c ≡ map owned lent.now)) }
{
    let mut values = Vec::new(alloc);
    values.reserve(lent.len())?;
    let mut nulls = Plane::new();
    for value in lent {
        match number_of(value) {
            Some((number, is_null)) => {
                values.push(number)?;
                nulls.push(is_null);
            }
            None => return Ok(None),
        }
    }
    Ok(Some(Numbers::new(values, nulls)))
}

/// The numbers, or None where a value is no number.
fn wide_numbers(alloc: Global, lent: &[Lent<'_>]) -> Result<Option<WideNumbers>, AllocError>
    requires { length lent.now ≤ 1024 }
    ensures { IfOk result (λ found. IfSome found (λ c. c ≡ map owned lent.now)) }
{
    let mut values = Vec::new(alloc);
    values.reserve(lent.len())?;
    let mut nulls = Plane::new();
    for value in lent {
        match wide_number_of(value) {
            Some((number, is_null)) => {
                values.push(number)?;
                nulls.push(is_null);
            }
            None => return Ok(None),
        }
    }
    Ok(Some(WideNumbers::new(values, nulls)))
}

/// The days, or None where a value is no day.
fn days(alloc: Global, lent: &[Lent<'_>]) -> Result<Option<Days>, AllocError>
    requires { length lent.now ≤ 1024 }
    ensures { IfOk result (λ found. IfSome found (λ c. c ≡ map owned lent.now)) }
{
    let mut values = Vec::new(alloc);
    values.reserve(lent.len())?;
    let mut nulls = Plane::new();
    for value in lent {
        match day_of(value) {
            Some((number, is_null)) => {
                values.push(number)?;
                nulls.push(is_null);
            }
            None => return Ok(None),
        }
    }
    Ok(Some(Days::new(values, nulls)))
}

/// The texts where they stand, or None where a value is no text.
fn texts<'a>(alloc: Global, lent: &[Lent<'a>]) -> Result<Option<Texts<'a>>, AllocError>
    requires { length lent.now ≤ 1024 }
    ensures { IfOk result (λ found. IfSome found (λ c. c ≡ map owned lent.now)) }
{
    let mut values: Vec<&'a str> = Vec::new(alloc);
    values.reserve(lent.len())?;
    let mut nulls = Plane::new();
    for value in lent {
        match text_of(value) {
            Some((text, is_null)) => {
                values.push(text)?;
                nulls.push(is_null);
            }
            None => return Ok(None),
        }
    }
    Ok(Some(Texts::new(values, nulls)))
}

/// The number, or 0 of NULL, and whether it is NULL.
fn number_of(value: &Lent<'_>) -> Option<(i64, bool)>
    ensures number { IfSome result (λ part. part.0 ≡ number (owned value.now)) }
    ensures null { IfSome result (λ part. part.1 ≡ is_null (owned value.now)) }
    ensures kind { IfSome result (λ part. IsNumber w64 (owned value.now)) }
{
    match value {
        Lent::Number(n) => match i64::try_from(*n) {
            Ok(n) => Some((n, false)),
            Err(_) => None,
        },
        Lent::Null => Some((0, true)),
        _ => None,
    }
}

/// The number, or 0 of NULL, and whether it is NULL.
fn wide_number_of(value: &Lent<'_>) -> Option<(i128, bool)>
    ensures number { IfSome result (λ part. part.0 ≡ number (owned value.now)) }
    ensures null { IfSome result (λ part. part.1 ≡ is_null (owned value.now)) }
    ensures kind { IfSome result (λ part. IsNumber w128 (owned value.now)) }
{
    match value {
        Lent::Number(n) => Some((*n, false)),
        Lent::Null => Some((0, true)),
        _ => None,
    }
}

/// The number of the day, or 0 of NULL, and whether it is NULL.
fn day_of(value: &Lent<'_>) -> Option<(i32, bool)>
    ensures number { IfSome result (λ part. part.0 ≡ number (owned value.now)) }
    ensures null { IfSome result (λ part. part.1 ≡ is_null (owned value.now)) }
    ensures kind { IfSome result (λ part. IsDate (owned value.now)) }
    ensures fits { IfSome result (λ part. FitsSigned w32 part.0) }
{
    match value {
        Lent::Day(day) => match Day::new(day.number()) {
            Some(day) => Some((day.number(), false)),
            None => None,
        },
        Lent::Null => Some((0, true)),
        _ => None,
    }
}

/// The text, or none of NULL, and whether it is NULL.
fn text_of<'a>(value: &Lent<'a>) -> Option<(&'a str, bool)>
    ensures text { IfSome result (λ part. part.0.now ≡ bytes (owned value.now)) }
    ensures null { IfSome result (λ part. part.1 ≡ is_null (owned value.now)) }
    ensures kind { IfSome result (λ part. IsText (owned value.now)) }
{
    match value {
        Lent::Text(text) => Some((*text, false)),
        Lent::Null => Some(("", true)),
        _ => None,
    }
}
