//! The rows of an answer.
//!
//! `append` puts the rows of another list behind the others, and leaves columns columns where both have as many. `row`
//! reads one, and `at_places` copies those of some places; what is copied of columns are numbers, and texts.
ghost use Rattle.std.specs.Prelude.{◌+◌, ◌++◌, ◌<◌, ◌≡◌, [], IfOk, IfSome, OnOk, drop, length, map, slice_index_or};
ghost use Rattle.std.specs.Vec.Iter.{into_iter_items};
ghost use Rattle.cq_values.specs.declared.value.Value.TheVariants.{Number};
ghost use Rattle.cq_values_rows.specs.Columns.{AreBelow, AreLong, column_of, first_in, longer as longer_by, row_at, row_or_none, rows_at, rows_of_columns};
ghost use Rattle.cq_values_rows.specs.RowList.{AreWhole, rows_in};

use crate::flat::FlatRows;
use crate::lent_row::LentRow;
use crate::value_column::ValueColumn;
use cq_values::Row;
use std::alloc::{AllocError, Global};
use std::marker::Model;
use std::mem::replace;
use std::vec::IntoIter;

/// Rows in their order.
#[derive(Debug, Drop)]
pub struct RowList {
    form: Form,
}

#[derive(Debug, Drop)]
enum Form {
    Listed(Vec<Row>),
    Flat(FlatRows),
    Columns(ColumnRows),
}

/// Columns of as many values as there are rows.
#[derive(Debug, Drop)]
struct ColumnRows {
    columns: Vec<ValueColumn>,
    len: usize,
}

impl Model for RowList {
    ghost use Rattle.std.specs.Prelude.{List};
    ghost use Rattle.cq_values_rows.specs.RowList.{IsWhole, list_of};
    ghost use Rattle.cq_values.specs.Value.{Row as Values};

    ghost Value = { List Values };

    ghost view = { λ l. list_of l.form };

    ghost invariant = { λ l. IsWhole l.form };
}

impl RowList {
    /// Rows in lists of their own.
    pub fn listed(rows: Vec<Row>) -> RowList
        ensures { result ≡ rows.items }
    {
        RowList {
            form: Form::Listed(rows),
        }
    }

    /// Rows in one list. A row that is only begun is none of them.
    pub fn flat(rows: FlatRows) -> RowList
        ensures { result ≡ rows.rows }
    {
        RowList {
            form: Form::Flat(rows),
        }
    }

    /// So many rows, column by column.
    pub fn of_columns(columns: Vec<ValueColumn>, len: usize) -> RowList
        requires { AreLong len columns.items }
        ensures { result ≡ rows_of_columns columns.items len }
    {
        RowList {
            form: Form::Columns(ColumnRows { columns, len }),
        }
    }

    #[tactic(auto, using(crate::proofs::Columns::rows_counted))]
    pub fn len(&self) -> usize
        ensures { result ≡ length self.now }
    {
        match &self.form {
            Form::Listed(rows) => rows.len(),
            Form::Flat(rows) => rows.len(),
            Form::Columns(rows) => rows.len,
        }
    }

    /// The row at a place, and past the end one without values.
    #[inline]
    #[tactic(auto, using(crate::proofs::Columns::row_there, crate::proofs::Columns::rows_counted))]
    pub fn row(&self, place: usize) -> LentRow<'_>
        ensures { result ≡ row_or_none self.now place }
    {
        if place >= self.len() {
            return LentRow::of(&[]);
        }
        match &self.form {
            Form::Listed(rows) => LentRow::of(rows[place].as_slice()),
            Form::Flat(rows) => LentRow::of(rows.row(place)),
            Form::Columns(rows) => LentRow::of_columns(rows.columns.as_slice(), place),
        }
    }

    /// What a column has in each row, where it stands as numbers.
    pub fn numbers(&self, at: usize) -> Option<&[i64]>
        ensures { IfSome result (λ numbers. map Number numbers.now ≡ column_of self.now at) }
    {
        match &self.form {
            Form::Columns(rows) => column_numbers(rows, at),
            _ => None,
        }
    }

    /// Puts the rows of another list behind the others. After an error some may be lost.
    pub fn append(&mut self, alloc: Global, more: RowList) -> Result<(), AllocError>
        ensures { OnOk result (self.new ≡ self.old ++ more) }
    {
        let rows = replace(self, RowList::listed(Vec::new(alloc)));
        *self = joined(alloc, rows, more)?;
        Ok(())
    }

    /// Copies of the rows at these places, in their order.
    #[tactic(auto, using(crate::proofs::Columns::rows_counted))]
    pub fn at_places(&self, alloc: Global, places: &[usize]) -> Result<RowList, AllocError>
        requires { AreBelow (length self.now) places.now }
        ensures { IfOk result (λ list. list ≡ rows_at self.now places.now) }
    {
        match &self.form {
            Form::Columns(rows) => columns_at(alloc, rows, places),
            _ => self.copies_at(alloc, places),
        }
    }

    /// The same, in one list.
    fn copies_at(&self, alloc: Global, places: &[usize]) -> Result<RowList, AllocError>
        ensures { IfOk result (λ list. list ≡ rows_at self.now places.now) }
    {
        let width = match places.first() {
            Some(place) => self.row(*place).len(),
            None => 0,
        };
        let mut flat = FlatRows::with_capacity(alloc, places.len(), width)?;
        for place in places {
            flat.push_row(alloc, &self.row(*place))?;
        }
        Ok(RowList::flat(flat))
    }

    /// The rows in one list of values. Only those that stand otherwise are copied.
    pub fn into_flat(self, alloc: Global) -> Result<FlatRows, AllocError>
        ensures { IfOk result (λ flat. flat.rows ≡ self) }
    {
        flat_of(alloc, self)
    }

    /// The rows in lists of their own. Only what stands in columns is copied.
    pub fn into_rows(self, alloc: Global) -> Result<Vec<Row>, AllocError>
        ensures { IfOk result (λ rows. rows.items ≡ self) }
    {
        let RowList { form } = self;
        match form {
            Form::Listed(rows) => Ok(rows),
            Form::Flat(rows) => rows.into_rows(alloc),
            Form::Columns(rows) => column_rows(alloc, &rows),
        }
    }
}

/// The rows of both lists, one behind the other.
fn joined(alloc: Global, rows: RowList, more: RowList) -> Result<RowList, AllocError>
    ensures { IfOk result (λ list. list ≡ rows ++ more) }
{
    if rows.len() == 0 {
        return Ok(more);
    }
    match (rows.form, more.form) {
        (Form::Columns(rows), Form::Columns(more)) => joined_columns(alloc, rows, more),
        (rows, more) => joined_flat(alloc, RowList { form: rows }, RowList { form: more }),
    }
}

/// The rows of columns, one behind the other. They stay columns where both have as many.
#[tactic(auto, using(crate::proofs::Columns::longer_long, crate::proofs::Columns::longer_rows))]
fn joined_columns(alloc: Global, rows: ColumnRows, more: ColumnRows) -> Result<RowList, AllocError>
    requires rows { AreWhole rows }
    requires more { AreWhole more }
    ensures { IfOk result (λ list. list ≡ rows_in rows ++ rows_in more) }
{
    match joined_len(&rows, &more) {
        Some(len) => {
            let columns = longer(alloc, rows.columns, more.columns)?;
            Ok(RowList::of_columns(columns, len))
        }
        None => joined_flat(
            alloc,
            RowList {
                form: Form::Columns(rows),
            },
            RowList {
                form: Form::Columns(more),
            },
        ),
    }
}

/// How many rows both are, if they have as many columns.
fn joined_len(rows: &ColumnRows, more: &ColumnRows) -> Option<usize>
    ensures len { IfSome result (λ len. len ≡ rows.now.len + more.now.len) }
    ensures same { IfSome result (λ len. length rows.now.columns.items ≡ length more.now.columns.items) }
{
    if rows.columns.len() == more.columns.len() {
        rows.len.checked_add(more.len)
    } else {
        None
    }
}

/// Columns with the values of others behind their own.
#[tactic(auto, using(crate::proofs::Columns::longer_next))]
fn longer(
    alloc: Global,
    columns: Vec<ValueColumn>,
    more: Vec<ValueColumn>,
) -> Result<Vec<ValueColumn>, AllocError>
    requires { length columns.items ≡ length more.items }
    ensures { IfOk result (λ all. all.items ≡ longer_by columns.items more.items) }
{
    let count = columns.len();
    let mut all = Vec::with_capacity(alloc, count)?;
    let mut left = columns.into_iter();
    let mut behind = more.into_iter();
    for _place in 0..count {
        all.push(next_longer(alloc, &mut left, &mut behind)?)?;
    }
    Ok(all)
}

/// The next column with the values of the next one of others behind its own.
fn next_longer(
    alloc: Global,
    left: &mut IntoIter<ValueColumn>,
    behind: &mut IntoIter<ValueColumn>,
) -> Result<ValueColumn, AllocError>
    requires left { 0 < length (into_iter_items left.old) }
    requires behind { 0 < length (into_iter_items behind.old) }
    ensures column { IfOk result (λ column. column ≡ first_in left.old ++ first_in behind.old) }
    ensures left { OnOk result (into_iter_items left.new ≡ drop 1 (into_iter_items left.old)) }
    ensures behind { OnOk result (into_iter_items behind.new ≡ drop 1 (into_iter_items behind.old)) }
{
    match left.next() {
        Some(column) => match behind.next() {
            Some(values) => {
                let mut column = column;
                column.append(alloc, values)?;
                Ok(column)
            }
            None => unreachable!(),
        },
        None => unreachable!(),
    }
}

/// The rows of both lists in one list of values.
fn joined_flat(alloc: Global, rows: RowList, more: RowList) -> Result<RowList, AllocError>
    ensures { IfOk result (λ list. list ≡ rows ++ more) }
{
    let mut flat = flat_of(alloc, rows)?;
    push_rows(alloc, &more, &mut flat)?;
    Ok(RowList::flat(flat))
}

/// The rows in one list of values, and none that is begun.
fn flat_of(alloc: Global, rows: RowList) -> Result<FlatRows, AllocError>
    ensures rows { IfOk result (λ flat. flat.rows ≡ rows) }
    ensures begun { IfOk result (λ flat. flat.begun ≡ []) }
{
    match rows.form {
        Form::Flat(flat) => {
            let mut flat = flat;
            flat.begin_row();
            Ok(flat)
        }
        form => {
            let mut flat = FlatRows::new(alloc);
            push_rows(alloc, &RowList { form }, &mut flat)?;
            Ok(flat)
        }
    }
}

/// Puts copies of the rows behind the others.
fn push_rows(alloc: Global, rows: &RowList, to: &mut FlatRows) -> Result<(), AllocError>
    requires { to.old.begun ≡ [] }
    ensures rows { OnOk result (to.new.rows ≡ to.old.rows ++ rows.now) }
    ensures begun { OnOk result (to.new.begun ≡ []) }
{
    for place in 0..rows.len() {
        to.push_row(alloc, &rows.row(place))?;
    }
    Ok(())
}

/// The rows of columns at these places, as columns.
#[tactic(auto, using(crate::proofs::Columns::copied_long, crate::proofs::Columns::copied_rows))]
fn columns_at(alloc: Global, rows: &ColumnRows, places: &[usize]) -> Result<RowList, AllocError>
    requires whole { AreWhole rows.now }
    requires below { AreBelow rows.now.len places.now }
    ensures { IfOk result (λ list. list ≡ rows_at (rows_in rows.now) places.now) }
{
    let mut columns = Vec::with_capacity(alloc, rows.columns.len())?;
    for values in &rows.columns {
        columns.push(values.at_places(alloc, places)?)?;
    }
    Ok(RowList::of_columns(columns, places.len()))
}

/// A column, where it stands as numbers.
fn column_numbers(rows: &ColumnRows, at: usize) -> Option<&[i64]>
    requires { AreWhole rows.now }
    ensures { IfSome result (λ numbers. map Number numbers.now ≡ column_of (rows_in rows.now) at) }
{
    match rows.columns.as_slice().get(at) {
        Some(values) => values.as_numbers(),
        None => None,
    }
}

/// The rows of columns in lists of their own.
fn column_rows(alloc: Global, rows: &ColumnRows) -> Result<Vec<Row>, AllocError>
    ensures { IfOk result (λ list. list.items ≡ rows_in rows.now) }
{
    let mut list = Vec::with_capacity(alloc, rows.len)?;
    for place in 0..rows.len {
        list.push(row_of(alloc, rows.columns.as_slice(), place)?)?;
    }
    Ok(list)
}

fn row_of(alloc: Global, columns: &[ValueColumn], place: usize) -> Result<Row, AllocError>
    ensures { IfOk result (λ row. row ≡ row_at columns.now place) }
{
    let mut row = Row::with_capacity(alloc, columns.len())?;
    for values in columns {
        row.push(values.lend(place).to_value(alloc)?)?;
    }
    Ok(row)
}
