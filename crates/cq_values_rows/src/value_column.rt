//! The values of one column of rows.
//!
//! Numbers of 64 bits stand as they are, as long as no other value comes. `push` and `append` put values behind the
//! others, `lend` reads one, and `at_places` copies those of some places. After an error some may be lost.
ghost use Rattle.std.specs.Prelude.{◌++◌, ◌∷◌, ◌≡◌, [], IfOk, IfSome, OnOk, length, map};
ghost use Rattle.cq_values.specs.Lent.{owned};
ghost use Rattle.cq_values.specs.declared.value.Value.TheVariants.{Number};
ghost use Rattle.cq_values.specs.Value.{column};
ghost use Rattle.cq_values_rows.specs.Columns.{AreBelow};

use cq_values::{Lent, Value, lend_column};
use std::alloc::{AllocError, Global};
use std::marker::Model;

/// The values of a column.
#[derive(Debug, Drop)]
pub struct ValueColumn {
    form: ColumnForm,
}

#[derive(Debug, Drop)]
enum ColumnForm {
    Numbers(Vec<i64>),
    Values(Vec<Value>),
}

impl Model for ValueColumn {
    ghost use Rattle.std.specs.Prelude.{List};
    ghost use Rattle.cq_values.specs.declared.value.Value.{Value as Datum};
    ghost use Rattle.cq_values_rows.specs.Columns.{values_in};

    ghost Value = { List Datum };

    ghost view = { λ c. values_in c.form };
}

impl ValueColumn {
    /// No values. Takes no memory.
    pub fn new(alloc: Global) -> ValueColumn
        ensures { result ≡ [] }
    {
        ValueColumn::numbers(Vec::new(alloc))
    }

    /// Numbers as they are.
    pub fn numbers(numbers: Vec<i64>) -> ValueColumn
        ensures { result ≡ map Number numbers.items }
    {
        ValueColumn {
            form: ColumnForm::Numbers(numbers),
        }
    }

    pub fn len(&self) -> usize
        ensures { result ≡ length self.now }
    {
        match &self.form {
            ColumnForm::Numbers(numbers) => numbers.len(),
            ColumnForm::Values(values) => values.len(),
        }
    }

    /// The values, where they stand as numbers.
    pub fn as_numbers(&self) -> Option<&[i64]>
        ensures { IfSome result (λ numbers. self.now ≡ map Number numbers.now) }
    {
        match &self.form {
            ColumnForm::Numbers(numbers) => Some(numbers.as_slice()),
            ColumnForm::Values(_) => None,
        }
    }

    /// The value at a place, and NULL past the end.
    #[inline]
    pub fn lend(&self, place: usize) -> Lent<'_>
        ensures { owned result ≡ column self.now place }
    {
        match &self.form {
            ColumnForm::Numbers(numbers) => lend_number(numbers.as_slice(), place),
            ColumnForm::Values(values) => lend_column(values.as_slice(), place),
        }
    }

    /// Puts a value behind the others.
    pub fn push(&mut self, alloc: Global, value: &Lent<'_>) -> Result<(), AllocError>
        ensures { OnOk result (self.new ≡ self.old ++ owned value.now ∷ []) }
    {
        match small_number(value) {
            Some(number) => self.push_number(number),
            None => self.push_value(alloc, value.to_value(alloc)?),
        }
    }

    fn push_number(&mut self, number: i64) -> Result<(), AllocError>
        ensures { OnOk result (self.new ≡ self.old ++ Number number ∷ []) }
    {
        match &mut self.form {
            ColumnForm::Numbers(numbers) => numbers.push(number)?,
            ColumnForm::Values(values) => values.push(Value::Number(i128::from(number)))?,
        }
        Ok(())
    }

    fn push_value(&mut self, alloc: Global, value: Value) -> Result<(), AllocError>
        ensures { OnOk result (self.new ≡ self.old ++ value ∷ []) }
    {
        match &mut self.form {
            ColumnForm::Values(values) => values.push(value)?,
            ColumnForm::Numbers(numbers) => {
                let mut values = number_values(alloc, numbers.as_slice())?;
                values.push(value)?;
                self.form = ColumnForm::Values(values);
            }
        }
        Ok(())
    }

    /// Puts the values of another column behind the others. No text is copied.
    pub fn append(&mut self, alloc: Global, more: ValueColumn) -> Result<(), AllocError>
        ensures { OnOk result (self.new ≡ self.old ++ more) }
    {
        match more.form {
            ColumnForm::Numbers(numbers) => self.push_numbers(numbers.as_slice()),
            ColumnForm::Values(values) => self.push_values(alloc, values),
        }
    }

    fn push_numbers(&mut self, more: &[i64]) -> Result<(), AllocError>
        ensures { OnOk result (self.new ≡ self.old ++ map Number more.now) }
    {
        match &mut self.form {
            ColumnForm::Numbers(numbers) => numbers.extend_from_slice(more)?,
            ColumnForm::Values(values) => push_each_number(more, values)?,
        }
        Ok(())
    }

    fn push_values(&mut self, alloc: Global, more: Vec<Value>) -> Result<(), AllocError>
        ensures { OnOk result (self.new ≡ self.old ++ more.items) }
    {
        let mut more = more;
        match &mut self.form {
            ColumnForm::Values(values) => values.append(&mut more)?,
            ColumnForm::Numbers(numbers) => {
                let mut values = number_values(alloc, numbers.as_slice())?;
                values.append(&mut more)?;
                self.form = ColumnForm::Values(values);
            }
        }
        Ok(())
    }

    /// Copies of the values at these places, in their order.
    pub fn at_places(&self, alloc: Global, places: &[usize]) -> Result<ValueColumn, AllocError>
        requires { AreBelow (length self.now) places.now }
        ensures { IfOk result (λ copies. copies ≡ map (column self.now) places.now) }
    {
        match &self.form {
            ColumnForm::Numbers(numbers) => {
                let copies = numbers_at(alloc, numbers.as_slice(), places)?;
                Ok(ValueColumn::numbers(copies))
            }
            ColumnForm::Values(values) => values_at(alloc, values.as_slice(), places),
        }
    }
}

#[inline]
fn lend_number(numbers: &[i64], place: usize) -> Lent<'_>
    ensures { owned result ≡ column (map Number numbers.now) place }
{
    match numbers.get(place) {
        Some(number) => Lent::Number(i128::from(*number)),
        None => Lent::Null,
    }
}

/// The number, if 64 bits hold it.
fn small_number(value: &Lent<'_>) -> Option<i64>
    ensures { IfSome result (λ number. owned value.now ≡ Number number) }
{
    match value {
        Lent::Number(number) => i64::try_from(*number).ok(),
        _ => None,
    }
}

/// Numbers as values.
fn number_values(alloc: Global, numbers: &[i64]) -> Result<Vec<Value>, AllocError>
    ensures { IfOk result (λ values. values.items ≡ map Number numbers.now) }
{
    let mut values = Vec::with_capacity(alloc, numbers.len())?;
    push_each_number(numbers, &mut values)?;
    Ok(values)
}

fn push_each_number(more: &[i64], values: &mut Vec<Value>) -> Result<(), AllocError>
    ensures { OnOk result (values.new.items ≡ values.old.items ++ map Number more.now) }
{
    for number in more {
        values.push(Value::Number(i128::from(*number)))?;
    }
    Ok(())
}

fn numbers_at(alloc: Global, numbers: &[i64], places: &[usize]) -> Result<Vec<i64>, AllocError>
    requires { AreBelow (length numbers.now) places.now }
    ensures { IfOk result (λ copies. map Number copies.items ≡ map (column (map Number numbers.now)) places.now) }
{
    let mut copies = Vec::new(alloc);
    copies.reserve(places.len())?;
    for place in places {
        copies.push_reserved(numbers[*place]);
    }
    Ok(copies)
}

fn values_at(alloc: Global, values: &[Value], places: &[usize]) -> Result<ValueColumn, AllocError>
    ensures { IfOk result (λ copies. copies ≡ map (column values.now) places.now) }
{
    let mut copies = Vec::with_capacity(alloc, places.len())?;
    for place in places {
        copies.push(lend_column(values, *place).to_value(alloc)?)?;
    }
    Ok(ValueColumn {
        form: ColumnForm::Values(copies),
    })
}
