//! Values of columns.
ghost use Rattle.std.proofs.Common.{rules};
ghost use Rattle.std.specs.Cmp.{po};
ghost use Rattle.std.specs.Cmp.Rules.{comparing};
ghost use Rattle.std.specs.Ordering.{as_partial_cmp};
ghost use Rattle.std.specs.Prelude.{◌≡◌, IfOk};
ghost use Rattle.cq_values.specs.Keys.{ties_where_same, value_cmp_total};
ghost use Rattle.cq_values.specs.Order.{value_cmp};
ghost use Rattle.cq_values.specs.Value.{is_null};

use crate::day::Day;
use crate::text::Text;
use std::alloc::{AllocError, Global};
use std::cmp::Ordering;

/// A value. The variants stand in the total order: numbers, days, texts, and NULL last.
#[derive(Debug, Default, PartialEq, Eq, Hash, Drop)]
pub enum Value {
    Number(i128),
    Day(Day),
    Text(Text),
    #[default]
    Null,
}

impl Value {
    pub fn copy(&self, alloc: Global) -> Result<Value, AllocError>
        ensures { IfOk result (λ v. v ≡ self.now) }
    {
        match self {
            Value::Number(n) => Ok(Value::Number(*n)),
            Value::Day(d) => Ok(Value::Day(*d)),
            Value::Text(t) => Ok(Value::Text(t.copy(alloc)?)),
            Value::Null => Ok(Value::Null),
        }
    }

    pub fn is_null(&self) -> bool
        ensures { result ≡ is_null self.now }
    {
        matches!(self, Value::Null)
    }
}

impl Ord for Value {
    ghost cmp = { value_cmp };

    ghost total = { Prim.search (comparing, rules) };

    ghost matches_partial_cmp = { Prim.search (comparing, rules) };

    ghost matches_eq = { ties_where_same _ (Prim.search rules) (Prim.search rules) };

    fn cmp(&self, other: &Value) -> Ordering {
        match (self, other) {
            (Value::Number(a), Value::Number(b)) => a.cmp(b),
            (Value::Day(a), Value::Day(b)) => a.number().cmp(&b.number()),
            (Value::Text(a), Value::Text(b)) => a.cmp(b),
            (Value::Null, Value::Null) => Ordering::Equal,
            (Value::Number(_), _) => Ordering::Less,
            (_, Value::Number(_)) => Ordering::Greater,
            (Value::Day(_), _) => Ordering::Less,
            (_, Value::Day(_)) => Ordering::Greater,
            (Value::Text(_), Value::Null) => Ordering::Less,
            (Value::Null, Value::Text(_)) => Ordering::Greater,
        }
    }
}

impl PartialOrd for Value {
    ghost partial_cmp = { as_partial_cmp value_cmp };

    ghost laws = { po value_cmp_total (ties_where_same _ (Prim.search rules) (Prim.search rules)) };

    fn partial_cmp(&self, other: &Value) -> Option<Ordering> {
        Some(self.cmp(other))
    }
}
