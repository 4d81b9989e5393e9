//! A row where it is stored.
//!
//! `lend` reads one of its values, and `to_row` and `cut` copy all or some. It stands in a list, or is a place of
//! columns, of which contracts see nothing. It is two words, and copied freely; only the copies take memory.
ghost use Rattle.std.specs.Prelude.{◌≡◌, IfOk, [], length, slice_index_or};
ghost use Rattle.cq_segments_pieces.specs.Rows.{row_of};
ghost use Rattle.cq_model.specs.Group.{key_of};
ghost use Rattle.cq_values.specs.Lent.{owned};
ghost use Rattle.cq_values.specs.Value.{column as column_at};

use crate::columns::Columns;
use cq_values::{Lent, Row, copy_row};
use std::alloc::{AllocError, Global};

/// A row where it is stored.
#[derive(Clone, Copy)]
pub enum StoredRow<'a> {
    /// It stands in a list.
    Alone(&'a Row),
    /// It stands at a place of columns.
    InColumns(&'a Columns, u16),
}

impl<'a> StoredRow<'a> {
    /// How many values it has.
    pub fn len(&self) -> usize
        ensures { result ≡ length (row_of self.now) }
    {
        match self {
            StoredRow::Alone(row) => row.len(),
            StoredRow::InColumns(columns, place) => len_at(*columns, usize::from(*place)),
        }
    }

    /// Its value in a column, where it stands: NULL where it has no such column.
    pub fn lend(&self, column: usize) -> Lent<'a>
        ensures { owned result ≡ column_at (row_of self.now) column }
    {
        match self {
            StoredRow::Alone(row) => row.lend(column),
            StoredRow::InColumns(columns, place) => columns.lend(usize::from(*place), column),
        }
    }

    /// A copy of it.
    pub fn to_row(&self, alloc: Global) -> Result<Row, AllocError>
        ensures { IfOk result (λ row. row ≡ row_of self.now) }
    {
        match self {
            StoredRow::Alone(row) => copy_row(alloc, row.as_slice()),
            StoredRow::InColumns(..) => self.copy_values(alloc),
        }
    }

    /// Copies of its values in some columns.
    pub fn cut(&self, alloc: Global, columns: &[usize]) -> Result<Row, AllocError>
        ensures { IfOk result (λ cut. cut ≡ key_of columns.now (row_of self.now)) }
    {
        let mut cut = Row::with_capacity(alloc, columns.len())?;
        for column in columns {
            cut.push(self.lend(*column).to_value(alloc)?)?;
        }
        Ok(cut)
    }

    fn copy_values(&self, alloc: Global) -> Result<Row, AllocError>
        ensures { IfOk result (λ row. row ≡ row_of self.now) }
    {
        let mut row = Row::with_capacity(alloc, self.len())?;
        for column in 0..self.len() {
            row.push(self.lend(column).to_value(alloc)?)?;
        }
        Ok(row)
    }
}

/// How many values the row at a place has.
fn len_at(columns: &Columns, place: usize) -> usize
    ensures { result ≡ length (slice_index_or columns.now place []) }
{
    if place < columns.len() {
        columns.width()
    } else {
        0
    }
}
