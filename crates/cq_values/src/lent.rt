//! Values whose texts are lent.
ghost use Rattle.std.specs.Prelude.{◌≡◌, IfOk};
ghost use Rattle.cq_values.specs.Lent.{owned};
ghost use Rattle.cq_values.specs.Order.{value_cmp};
ghost use Rattle.cq_values.specs.Value.{column, is_null};

use crate::day::Day;
use crate::text::Text;
use crate::value::Value;
use std::alloc::{AllocError, Global};
use std::cmp::Ordering;

/// A value that is read where it stands: its text is not copied.
#[derive(Clone, Copy, Debug)]
pub enum Lent<'a> {
    Number(i128),
    Day(Day),
    Text(&'a str),
    Null,
}

impl Value {
    pub fn lend(&self) -> Lent<'_>
        ensures { owned result ≡ self.now }
    {
        match self {
            Value::Number(n) => Lent::Number(*n),
            Value::Day(d) => Lent::Day(*d),
            Value::Text(t) => Lent::Text(t.as_str()),
            Value::Null => Lent::Null,
        }
    }
}

impl Lent<'_> {
    /// The value as one of its own: a text is copied.
    pub fn to_value(&self, alloc: Global) -> Result<Value, AllocError>
        ensures { IfOk result (λ v. v ≡ owned self.now) }
    {
        match self {
            Lent::Number(n) => Ok(Value::Number(*n)),
            Lent::Day(day) => Ok(Value::Day(*day)),
            Lent::Text(text) => Ok(Value::Text(Text::new(alloc, text)?)),
            Lent::Null => Ok(Value::Null),
        }
    }

    pub fn is_null(&self) -> bool
        ensures { result ≡ is_null (owned self.now) }
    {
        matches!(self, Lent::Null)
    }
}

/// The value in a column of a row, and NULL past the end.
pub fn lend_column(row: &[Value], place: usize) -> Lent<'_>
    ensures { owned result ≡ column row.now place }
{
    match row.get(place) {
        Some(value) => value.lend(),
        None => Lent::Null,
    }
}

/// The total order of values, for values that are lent.
pub fn cmp_lent(a: &Lent<'_>, b: &Lent<'_>) -> Ordering
    ensures { result ≡ value_cmp (owned a.now) (owned b.now) }
{
    match (a, b) {
        (Lent::Number(m), Lent::Number(n)) => m.cmp(n),
        (Lent::Day(d), Lent::Day(e)) => d.number().cmp(&e.number()),
        (Lent::Text(s), Lent::Text(t)) => s.cmp(t),
        (Lent::Null, Lent::Null) => Ordering::Equal,
        (Lent::Number(_), _) => Ordering::Less,
        (_, Lent::Number(_)) => Ordering::Greater,
        (Lent::Day(_), _) => Ordering::Less,
        (_, Lent::Day(_)) => Ordering::Greater,
        (Lent::Text(_), Lent::Null) => Ordering::Less,
        (Lent::Null, Lent::Text(_)) => Ordering::Greater,
    }
}
