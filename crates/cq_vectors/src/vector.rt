//! Vectors in any form.
//!
//! A vector is made of a form, or gathered from a column of rows in the narrowest form that holds its values, and does
//! not change. A kernel looks at `form` once and goes over a slice; `whole_numbers` and `nulls` tell what most loops
//! ask for. `lend` reads one place whatever the form. To gather costs one pass over the rows for each form that is
//! tried, and the room of the form; readers take no memory.
ghost use Rattle.std.specs.Bool.{OnFalse, OnTrue};
ghost use Rattle.std.specs.Prelude.{IfOk, IfSome, length, map, replicate, slice_index_or, ◌≡◌, ◌≤◌};
ghost use Rattle.cq_values.specs.Lent.{owned};
ghost use Rattle.cq_values.specs.declared.value.Value.TheVariants.{Null, Number};
ghost use Rattle.cq_values.specs.Value.{column as column_at, is_null};
ghost use Rattle.cq_vectors.specs.Form.{values_in};
ghost use Rattle.cq_vectors.specs.Gathered.{column_of, lent_rows};

use crate::days::Days;
use crate::numbers::Numbers;
use crate::texts::Texts;
use crate::wide_numbers::WideNumbers;
use cq_values::{Lent, Row, Value};
use cq_vectors_masks::Plane;
use cq_vectors_stored::{Codes, LentDays, LentNumbers, Narrow, NarrowDays, RunTexts};
use std::alloc::{AllocError, Global};
use std::marker::Model;

/// How a vector holds its values. Kernels read a form as a slice; `Values` is for what no narrower form holds. Of
/// `Narrow` and what stands below it the values are those of a stored column, which lends them, or of places of one.
#[derive(Drop)]
pub enum Form<'a> {
    Numbers(Numbers),
    Wide(WideNumbers),
    Days(Days),
    Texts(Texts<'a>),
    Values(Vec<Lent<'a>>),
    /// One value, and in how many places it stands.
    Constant(Lent<'a>, usize),
    Narrow(Narrow<'a>),
    NarrowDays(NarrowDays<'a>),
    LentNumbers(LentNumbers<'a>),
    LentDays(LentDays<'a>),
    Codes(Codes<'a>),
    Run(RunTexts<'a>),
}

/// At most 1,024 values of one column.
#[derive(Drop)]
pub struct Vector<'a> {
    form: Form<'a>,
}

impl<'a> Model for Vector<'a> {
    ghost use Rattle.std.specs.Prelude.{List, length, ◌≤◌};
    ghost use Rattle.cq_values.specs.declared.value.Value.{Value as Datum};
    ghost use Rattle.cq_vectors.specs.Form.{values_in};

    ghost Value = { List Datum };

    ghost view = { λ v. values_in v.form };

    ghost invariant = { λ v. length (values_in v.form) ≤ 1024 };
}

impl<'a> Vector<'a> {
    /// Takes no memory.
    pub fn new(form: Form<'a>) -> Vector<'a>
        requires { length (values_in form) ≤ 1024 }
        ensures { result ≡ values_in form.entry }
    {
        Vector { form }
    }

    /// The values of a column of rows that stand in one list, where a row that is too short has NULL.
    pub fn gather(alloc: Global, rows: &'a [Row], column: usize) -> Result<Vector<'a>, AllocError>
        requires { length rows.now ≤ 1024 }
        ensures { IfOk result (λ vector. vector ≡ column_of rows.now column) }
    {
        let lent = lend_rows(alloc, rows)?;
        Vector::gather_lent(alloc, lent.as_slice(), column)
    }

    /// The values of a column of lent rows, where a row that is too short has NULL.
    pub fn gather_lent(
        alloc: Global,
        rows: &[&'a Row],
        column: usize,
    ) -> Result<Vector<'a>, AllocError>
        requires { length rows.now ≤ 1024 }
        ensures { IfOk result (λ vector. vector ≡ column_of (lent_rows rows.now) column) }
    {
        let form = form_of(alloc, rows, column)?;
        Ok(Vector { form })
    }

    /// How the values are held, for a kernel to choose its loop by.
    pub fn form(&self) -> &Form<'a>
        ensures values { values_in result.now ≡ self.now }
        ensures few { length self.now ≤ 1024 }
    {
        &self.form
    }

    /// The form itself, for its memory.
    pub(crate) fn into_form(self) -> Form<'a> {
        self.form
    }

    pub fn len(&self) -> usize
        ensures len { result ≡ length self.now }
        ensures few { result ≤ 1024 }
    {
        match &self.form {
            Form::Numbers(numbers) => numbers.len(),
            Form::Wide(numbers) => numbers.len(),
            Form::Days(days) => days.len(),
            Form::Texts(texts) => texts.len(),
            Form::Values(values) => values.len(),
            Form::Constant(_, len) => *len,
            Form::Narrow(numbers) => numbers.len(),
            Form::NarrowDays(days) => days.len(),
            Form::LentNumbers(numbers) => numbers.len(),
            Form::LentDays(days) => days.len(),
            Form::Codes(texts) => texts.len(),
            Form::Run(texts) => texts.len(),
        }
    }

    /// The value of a place, and NULL past the end.
    pub fn lend(&self, place: usize) -> Lent<'_>
        ensures { owned result ≡ slice_index_or self.now place Null }
    {
        match &self.form {
            Form::Numbers(numbers) => numbers.lend(place),
            Form::Wide(numbers) => numbers.lend(place),
            Form::Days(days) => days.lend(place),
            Form::Texts(texts) => texts.lend(place),
            Form::Values(values) => lent_at(values.as_slice(), place),
            Form::Constant(value, len) => if place < *len {
                lend_again(value)
            } else {
                Lent::Null
            },
            Form::Narrow(numbers) => numbers.lend(place),
            Form::NarrowDays(days) => days.lend(place),
            Form::LentNumbers(numbers) => numbers.lend(place),
            Form::LentDays(days) => days.lend(place),
            Form::Codes(texts) => texts.lend(place),
            Form::Run(texts) => texts.lend(place),
        }
    }

    /// The values, if each is a number of 64 bits: for loops that need think of nothing else.
    pub fn whole_numbers(&self) -> Option<&[i64]>
        ensures { IfSome result (λ numbers. self.now ≡ map Number numbers.now) }
    {
        match &self.form {
            Form::Numbers(numbers) => numbers.whole(),
            Form::LentNumbers(numbers) => numbers.whole(),
            _ => None,
        }
    }

    /// The values, where they stand as numbers of 64 bits.
    pub fn numbers(&self) -> Option<LentNumbers<'_>>
        ensures { IfSome result (λ numbers. numbers ≡ self.now) }
    {
        match &self.form {
            Form::Numbers(numbers) => Some(numbers.lend_all()),
            Form::LentNumbers(numbers) => Some(numbers.lend_all()),
            _ => None,
        }
    }

    /// The values, where they stand as days.
    pub fn days(&self) -> Option<LentDays<'_>>
        ensures { IfSome result (λ days. days ≡ self.now) }
    {
        match &self.form {
            Form::Days(days) => Some(days.lend_all()),
            Form::LentDays(days) => Some(days.lend_all()),
            _ => None,
        }
    }

    /// Where the values are NULL, if that is told apart from them.
    pub fn nulls(&self) -> Option<&Plane>
        ensures { IfSome result (λ nulls. nulls.now ≡ map is_null self.now) }
    {
        match &self.form {
            Form::Numbers(numbers) => Some(numbers.nulls()),
            Form::Wide(numbers) => Some(numbers.nulls()),
            Form::Days(days) => Some(days.nulls()),
            Form::Texts(texts) => Some(texts.nulls()),
            Form::Narrow(numbers) => Some(numbers.nulls()),
            Form::NarrowDays(days) => Some(days.nulls()),
            Form::LentNumbers(numbers) => Some(numbers.nulls()),
            Form::LentDays(days) => Some(days.nulls()),
            Form::Codes(texts) => Some(texts.nulls()),
            Form::Run(texts) => Some(texts.nulls()),
            Form::Values(_) | Form::Constant(_, _) => None,
        }
    }
}

fn lent_at<'b>(values: &[Lent<'b>], place: usize) -> Lent<'b>
    ensures { owned result ≡ slice_index_or (map owned values.now) place Null }
{
    match values.get(place) {
        Some(value) => lend_again(value),
        None => Lent::Null,
    }
}

/// The same value, where it stands.
fn lend_again<'b>(value: &Lent<'b>) -> Lent<'b>
    ensures { owned result ≡ owned value.now }
{
    match value {
        Lent::Number(n) => Lent::Number(*n),
        Lent::Day(day) => Lent::Day(*day),
        Lent::Text(text) => Lent::Text(text),
        Lent::Null => Lent::Null,
    }
}

/// The narrowest form that holds a column of the rows.
fn form_of<'b>(alloc: Global, rows: &[&'b Row], column: usize) -> Result<Form<'b>, AllocError>
    requires { length rows.now ≤ 1024 }
    ensures { IfOk result (λ form. values_in form ≡ column_of (lent_rows rows.now) column) }
{
    if all_null(rows, column) {
        return Ok(Form::Constant(Lent::Null, rows.len()));
    }
    if let Some(numbers) = Numbers::gather(alloc, rows, column)? {
        return Ok(Form::Numbers(numbers));
    }
    if let Some(days) = Days::gather(alloc, rows, column)? {
        return Ok(Form::Days(days));
    }
    if let Some(texts) = Texts::gather(alloc, rows, column)? {
        return Ok(Form::Texts(texts));
    }
    if let Some(numbers) = WideNumbers::gather(alloc, rows, column)? {
        return Ok(Form::Wide(numbers));
    }
    Ok(Form::Values(lent_values(alloc, rows, column)?))
}

/// Whether the column is NULL in each row. Stops at the first value.
fn all_null(rows: &[&Row], column: usize) -> bool
    ensures { OnTrue result (column_of (lent_rows rows.now) column ≡ replicate (length rows.now) Null) }
{
    for row in rows {
        if has_value(row, column) {
            return false;
        }
    }
    true
}

fn has_value(row: &Row, column: usize) -> bool
    ensures { OnFalse result (column_at row.now column ≡ Null) }
{
    match row.as_slice().get(column) {
        None | Some(Value::Null) => false,
        Some(_) => true,
    }
}

fn lent_values<'b>(
    alloc: Global,
    rows: &[&'b Row],
    column: usize,
) -> Result<Vec<Lent<'b>>, AllocError>
    ensures { IfOk result (λ values. map owned values.items ≡ column_of (lent_rows rows.now) column) }
{
    let mut values: Vec<Lent<'b>> = Vec::new(alloc);
    values.reserve(rows.len())?;
    for row in rows {
        values.push_reserved((*row).lend(column));
    }
    Ok(values)
}

fn lend_rows<'b>(alloc: Global, rows: &'b [Row]) -> Result<Vec<&'b Row>, AllocError>
    ensures { IfOk result (λ lent. lent_rows lent.items ≡ rows.now) }
{
    let mut lent: Vec<&'b Row> = Vec::new(alloc);
    lent.reserve(rows.len())?;
    for row in rows {
        lent.push(row)?;
    }
    Ok(lent)
}
