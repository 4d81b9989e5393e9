//! What is told of a group's rows.
ghost use Rattle.std.specs.Prelude.{[], ◌∷◌, ◌+ℤ◌, ◌+◌, ◌^◌, ◌≡◌, ◌≤◌, IfErr, IfOk, OnOk, length, nat_abs, pos};
ghost use Rattle.cq_model_bags.specs.Bag.{once_each};
ghost use Rattle.cq_model.specs.Group.{InRange, SumInRange, addend, aggregate, count_distinct, extreme, higher, lower};
ghost use Rattle.cq_test_plain.specs.Ends.{better};
ghost use Rattle.cq_test_plain.specs.Faults.{Tells};
ghost use Rattle.cq_test_plain.specs.FaultsOf.{IsAggregateFault};
ghost use Rattle.cq_test_plain.specs.OfGroups.{first_values, known_values, value_rows};
ghost use Rattle.cq_model.specs.Totals.{shown_total, total_of};
ghost use Rattle.cq_test_plain.specs.Wide.{AtSomeRow, IsWideAt};
ghost use Rattle.cq_model.specs.Width.{number_limit};

use crate::evaluation::value_at;
use crate::fault::PlainFault;
use crate::repeats::firsts;
use cq_model::{Aggregate, Expr};
use cq_values::{Lent, Row, Total, Value};
use std::alloc::{AllocError, Global};

/// Which end of the total order is asked for.
#[derive(Clone, Copy, Debug)]
enum End {
    Least,
    Greatest,
}

/// An aggregate over these rows.
pub(crate) fn aggregate(alloc: Global, kind: &Aggregate, rows: &[Row]) -> Result<Value, PlainFault>
    ensures ok { IfOk result (λ v. v ≡ aggregate kind.now (once_each rows.now)) }
    ensures range { OnOk result (SumInRange kind.now (once_each rows.now)) }
    ensures fault { IfErr result (IsAggregateFault kind.now rows.now) }
{
    match kind {
        Aggregate::CountAll => Ok(count(rows)),
        Aggregate::Count(expr) => Ok(count(&values_of(alloc, expr, rows)?)),
        Aggregate::CountDistinct(expr) => count_distinct(alloc, expr, rows),
        Aggregate::Sum(expr) => sum(&values_of(alloc, expr, rows)?),
        Aggregate::Min(expr) => Ok(extreme(alloc, &values_of(alloc, expr, rows)?, End::Least)?),
        Aggregate::Max(expr) => Ok(extreme(alloc, &values_of(alloc, expr, rows)?, End::Greatest)?),
    }
}

/// The values of the expression in the rows, one by one, without NULL.
fn values_of(alloc: Global, expr: &Expr, rows: &[Row]) -> Result<Vec<Value>, PlainFault>
    ensures ok { IfOk result (λ values. values.items ≡ known_values expr.now rows.now) }
    ensures fault { IfErr result (Tells (AtSomeRow (IsWideAt expr.now) (once_each rows.now)) ⊥) }
{
    let mut values = Vec::new(alloc);
    for row in rows {
        let value = value_at(alloc, expr, row.as_slice())?;
        if !matches!(value, Value::Null) {
            values.push(value)?;
        }
    }
    Ok(values)
}

fn count<T>(items: &[T]) -> Value
    ensures { result ≡ Value.Number (pos (length items.now)) }
{
    Value::Number(items.len() as i128)
}

/// How many different values other than NULL the expression has in the rows.
fn count_distinct(alloc: Global, expr: &Expr, rows: &[Row]) -> Result<Value, PlainFault>
    ensures ok { IfOk result (λ v. v ≡ Value.Number (count_distinct expr.now (once_each rows.now))) }
    ensures fault { IfErr result (Tells (AtSomeRow (IsWideAt expr.now) (once_each rows.now)) ⊥) }
{
    let values = value_rows(alloc, expr, rows)?;
    let different = firsts(alloc, &values)?;
    Ok(count_known(&different))
}

/// The value of the expression in each row, as a row of one column.
fn value_rows(alloc: Global, expr: &Expr, rows: &[Row]) -> Result<Vec<Row>, PlainFault>
    ensures ok { IfOk result (λ values. values.items ≡ value_rows expr.now rows.now) }
    ensures fault { IfErr result (Tells (AtSomeRow (IsWideAt expr.now) (once_each rows.now)) ⊥) }
{
    let mut values = Vec::new(alloc);
    for row in rows {
        let value = value_at(alloc, expr, row.as_slice())?;
        values.push(row_of(alloc, value)?)?;
    }
    Ok(values)
}

fn row_of(alloc: Global, value: Value) -> Result<Row, AllocError>
    ensures { IfOk result (λ row. row ≡ value ∷ []) }
{
    let mut row = Row::new(alloc);
    row.push(value)?;
    Ok(row)
}

/// How many of the rows have a first value other than NULL.
fn count_known(rows: &[Row]) -> Value
    ensures { result ≡ Value.Number (pos (length (first_values rows.now))) }
{
    let mut count: usize = 0;
    for row in rows {
        if !matches!(row.lend(0), Lent::Null) {
            count += 1;
        }
    }
    Value::Number(count as i128)
}

/// The exact total, of values without NULL.
fn sum(values: &[Value]) -> Result<Value, PlainFault>
    ensures ok { IfOk result (λ v. v ≡ shown_total values.now) }
    ensures range { OnOk result (InRange (total_of values.now)) }
    ensures fault { IfErr result (Tells ⊥ (InRange (total_of values.now) → ⊥)) }
{
    let mut total = Total::new();
    for value in values {
        add_value(&mut total, value);
    }
    let Some(total) = total.to_i128() else {
        return Err(PlainFault::SumOutOfRange);
    };
    if values.is_empty() {
        Ok(Value::Null)
    } else {
        Ok(Value::Number(total))
    }
}

/// NULL, days and texts add nothing.
fn add_value(total: &mut Total, value: &Value)
    requires { nat_abs total.old ≤ 2 ^ 249 }
    ensures sum { total.new ≡ total.old +ℤ addend value.now }
    ensures small { nat_abs total.new ≤ nat_abs total.old + number_limit }
{
    if let Value::Number(n) = value {
        total.add(*n);
    }
}

/// The value at this end of the total order, and NULL where there is none.
fn extreme(alloc: Global, values: &[Value], end: End) -> Result<Value, AllocError>
    ensures { IfOk result (λ v. v ≡ extreme (better end) values.now) }
{
    let Some(first) = values.first() else {
        return Ok(Value::Null);
    };
    let mut best = first;
    for value in values {
        best = better(end, best, value);
    }
    best.copy(alloc)
}

fn better<'a>(end: End, a: &'a Value, b: &'a Value) -> &'a Value
    ensures { result.now ≡ better end a.now b.now }
{
    match end {
        End::Least => lower(a, b),
        End::Greatest => higher(a, b),
    }
}

fn lower<'a>(a: &'a Value, b: &'a Value) -> &'a Value
    ensures { result.now ≡ lower a.now b.now }
{
    if a > b { b } else { a }
}

fn higher<'a>(a: &'a Value, b: &'a Value) -> &'a Value
    ensures { result.now ≡ higher a.now b.now }
{
    if a > b { a } else { b }
}
