//! What operators and tests ask of their operands, and what they give.
ghost use Rattle.std.specs.Prelude.{◌≡◌, ◌&&◌};
ghost use Rattle.cq_binder_rules.specs.Kinds.{a_condition, aggregated, agree, between_them, compared_with, connected, counted, is_condition, is_of, is_value, kept_value, like_of, negation_of, negative, number_of, of_type, part_of, product_of, sum_of, tested, text_of, unless, value_of};
ghost use Rattle.cq_binder_rules.specs.declared.fault.Fault.TheVariants.{TypeMismatch};

use cq_binder_rules::{Fault, Kind, Typing};
use cq_model::{COUNT_SIZE, MAX_TEXT, TOO_WIDE};
use cq_model_eval::part_limit;
use cq_sql_language::AggregateFunction;
use cq_values::{DayPart, Text, Ty};

/// A condition.
const A_CONDITION: Typing = Typing {
    kind: Kind::Condition,
    size: 0,
};

/// A value of a type.
pub fn value_of(ty: Ty, size: u128) -> Typing
    ensures { result ≡ value_of ty size }
{
    Typing {
        kind: Kind::Value(ty),
        size,
    }
}

/// A number that is written or worked out has at most 127 bits.
pub fn number_of(size: u128) -> Result<Typing, Fault>
    ensures { result ≡ number_of size }
{
    if size < TOO_WIDE {
        Ok(value_of(Ty::Integer, size))
    } else {
        Err(Fault::TooWide)
    }
}

/// Minus of a number.
pub fn negative(x: Typing) -> Result<Typing, Fault>
    ensures { result ≡ negative x }
{
    if is_of(Ty::Integer, x.kind) {
        number_of(x.size)
    } else {
        Err(Fault::TypeMismatch)
    }
}

/// A sum or a difference of two numbers.
pub fn sum_of(x: Typing, y: Typing) -> Result<Typing, Fault>
    ensures { result ≡ sum_of x y }
{
    if !is_of(Ty::Integer, x.kind) || !is_of(Ty::Integer, y.kind) {
        return Err(Fault::TypeMismatch);
    }
    match x.size.checked_add(y.size) {
        Some(size) => number_of(size),
        None => Err(Fault::TooWide),
    }
}

/// A product of two numbers.
pub fn product_of(x: Typing, y: Typing) -> Result<Typing, Fault>
    ensures { result ≡ product_of x y }
{
    if !is_of(Ty::Integer, x.kind) || !is_of(Ty::Integer, y.kind) {
        return Err(Fault::TypeMismatch);
    }
    match x.size.checked_mul(y.size) {
        Some(size) => number_of(size),
        None => Err(Fault::TooWide),
    }
}

/// A part of a day.
pub fn part_of(part: DayPart, x: Typing) -> Result<Typing, Fault>
    ensures { result ≡ part_of part x }
{
    if is_of(Ty::Date, x.kind) {
        Ok(value_of(Ty::Integer, part_limit(part)))
    } else {
        Err(Fault::TypeMismatch)
    }
}

/// A text, or a pattern, of at most 4,096 bytes.
pub fn text_of(text: &Text) -> Result<Typing, Fault>
    ensures { result ≡ text_of text.now }
{
    if text.as_str().len() <= MAX_TEXT {
        Ok(value_of(Ty::Text, 0))
    } else {
        Err(Fault::TextTooLong)
    }
}

/// A comparison of two values.
pub fn compared_with(x: Typing, y: Typing) -> Result<Typing, Fault>
    ensures { result ≡ compared_with x y }
{
    condition_if(agree(x.kind, y.kind))
}

/// IS NULL of a value.
pub fn tested(x: Typing) -> Result<Typing, Fault>
    ensures { result ≡ tested x }
{
    condition_if(is_value(x.kind))
}

/// A count.
pub fn counted() -> Typing
    ensures { result ≡ counted }
{
    value_of(Ty::Integer, COUNT_SIZE)
}

/// An aggregate of an argument: COUNT asks for a value, with DISTINCT or without, and SUM for a number; MIN and MAX give
/// a value of the rows.
pub fn aggregated(function: AggregateFunction, x: Typing) -> Result<Typing, Fault>
    ensures { result ≡ aggregated function x }
{
    let fits = match function {
        AggregateFunction::Sum => is_of(Ty::Integer, x.kind),
        AggregateFunction::Count
        | AggregateFunction::CountDistinct
        | AggregateFunction::Min
        | AggregateFunction::Max => is_value(x.kind),
    };
    if !fits {
        return Err(Fault::TypeMismatch);
    }
    Ok(match function {
        AggregateFunction::Count | AggregateFunction::CountDistinct => counted(),
        AggregateFunction::Sum => value_of(Ty::Integer, TOO_WIDE),
        AggregateFunction::Min | AggregateFunction::Max => x,
    })
}

/// A value of this type, as a column is set to it.
pub fn of_type(ty: Ty, x: Typing) -> Result<Typing, Fault>
    ensures { result ≡ of_type ty x }
{
    if is_of(ty, x.kind) {
        Ok(x)
    } else {
        Err(Fault::TypeMismatch)
    }
}

/// A value with a type, as a column of a view keeps it.
pub fn kept_value(x: Typing) -> Result<Typing, Fault>
    ensures { result ≡ kept_value x }
{
    match x.kind {
        Kind::Value(_) => Ok(x),
        Kind::Condition | Kind::Null => Err(Fault::TypeMismatch),
    }
}

/// A value between two others.
pub fn between_them(x: Typing, least: Typing, greatest: Typing) -> Result<Typing, Fault>
    ensures { result ≡ between_them x least greatest }
{
    condition_if(agree(x.kind, least.kind) && agree(x.kind, greatest.kind))
}

/// LIKE of a text.
pub fn like_of(x: Typing, pattern: Typing) -> Result<Typing, Fault>
    ensures { result ≡ like_of x pattern }
{
    condition_if(is_of(Ty::Text, x.kind))
}

/// NOT of a condition.
pub fn negation_of(x: Typing) -> Result<Typing, Fault>
    ensures { result ≡ negation_of x }
{
    condition_if(is_condition(x.kind))
}

/// AND or OR of two conditions.
pub fn connected(x: Typing, y: Typing) -> Result<Typing, Fault>
    ensures { result ≡ connected x y }
{
    condition_if(is_condition(x.kind) && is_condition(y.kind))
}

/// A condition where this is met.
pub fn condition_if(met: bool) -> Result<Typing, Fault>
    ensures { result ≡ unless met TypeMismatch a_condition }
{
    if met {
        Ok(A_CONDITION)
    } else {
        Err(Fault::TypeMismatch)
    }
}

/// Whether two values can be compared: they are of one type, or one is NULL.
fn agree(k: Kind, l: Kind) -> bool
    ensures { result ≡ agree k l }
{
    match k {
        Kind::Condition => false,
        Kind::Value(ty) => is_of(ty, l),
        Kind::Null => is_value(l),
    }
}

/// Whether these two can be compared, and all before them too.
pub fn agree_too(all_agree: bool, k: Kind, l: Kind) -> bool
    ensures { result ≡ (all_agree && agree k l) }
{
    all_agree && agree(k, l)
}

fn is_of(ty: Ty, kind: Kind) -> bool
    ensures { result ≡ is_of ty kind }
{
    match kind {
        Kind::Condition => false,
        Kind::Value(other) => other == ty,
        Kind::Null => true,
    }
}

fn is_value(kind: Kind) -> bool
    ensures { result ≡ is_value kind }
{
    !matches!(kind, Kind::Condition)
}

fn is_condition(kind: Kind) -> bool
    ensures { result ≡ is_condition kind }
{
    matches!(kind, Kind::Condition)
}
