//! The total order of values.
ghost use Rattle.std.specs.Prelude.{◌≡◌};
ghost use Rattle.cq_values.specs.Order.{value_cmp};

use crate::value::Value;
use std::cmp::Ordering;

/// The order by which results are sorted: numbers, then days, then texts by their bytes, and NULL after every value.
pub fn cmp_total(a: &Value, b: &Value) -> Ordering
    ensures { result ≡ value_cmp a.now b.now }
{
    a.cmp(b)
}
