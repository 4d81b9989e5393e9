//! Rows that are put into columns as they come.
//!
//! `push` takes the values of a row, from the left, and `end_row` ends it; `push_row` copies a row. A value is put where it
//! stays, and 1,024 rows at a time become a piece. `push_columns` takes a piece of rows at once, as columns. `finish` gives
//! the rows: it makes a row of each that is in no piece. After an error some may be lost.
ghost use Rattle.std.specs.Prelude.{IfOk, OnErr, OnOk, [], length, ◌+◌, ◌<◌, ◌^◌, ◌≡◌, ◌≤◌, ◌∷◌, replicate};
ghost use Rattle.cq_segments_pieces.specs.Columns.{AreColumns, columns_in, encoded_rows, rows_of_columns};
ghost use Rattle.cq_segments_pieces.specs.Marked.{unmarked};
ghost use Rattle.cq_segments_pieces.specs.Rows.{row_of};
ghost use Rattle.cq_values.specs.Lent.{owned};
ghost use Rattle.cq_values.specs.Value.{Row as Values};
ghost use Rattle.cq_writestore_rows.specs.Filling.{Adds, AreOpen, CanTake, IsEmpty, IsWhole, with_row, with_rows, with_value};
ghost use Rattle.cq_writestore_rows.specs.TypedColumn.{values_in};

use crate::new_rows::NewRows;
use crate::typed_column::TypedColumn;
use cq_encodings::AnyEncoded;
use cq_segments_pieces::{Piece, StoredRow, widened};
use cq_values::{ColumnDef, Lent, Row, Ty};
use std::alloc::{AllocError, Global};
use std::marker::Model;
use std::mem;

/// Rows that are all of one width, and the first values of another.
#[derive(Drop)]
pub struct Filling {
    pieces: Vec<Piece>,
    types: Vec<Ty>,
    columns: Vec<TypedColumn>,
    /// How many columns have a value of the row that is begun.
    begun: usize,
    /// How many rows have ended behind those of the pieces.
    len: usize,
}

impl Model for Filling {
    ghost use Rattle.std.specs.Prelude.{length, take, ◌++◌};
    ghost use Rattle.cq_segments_pieces.specs.Columns.{rows_of_columns};
    ghost use Rattle.cq_segments_pieces.specs.Marked.{rows_of};
    ghost use Rattle.cq_segments_pieces.specs.Pieces.{joined};
    ghost use Rattle.cq_vectors.specs.Batch.{row_at};
    ghost use Rattle.cq_writestore_rows.specs.Filling.{Filled, IsFilling};
    ghost use Rattle.cq_writestore_rows.specs.TypedColumn.{values_in};

    ghost Value = { Filled };

    ghost view = { λ f. record {
      rows = rows_of (joined f.pieces.items) ++ rows_of_columns (values_in f.columns.items) f.len;
      begun = row_at (take f.begun (values_in f.columns.items)) f.len;
      width = length f.types.items;
    } };

    ghost invariant = { λ f. IsFilling f.pieces.items (length f.types.items) (values_in f.columns.items) f.begun f.len };
}

impl Filling {
    /// No row yet. Each is to have a value for each of these columns.
    pub fn new(alloc: Global, columns: &[ColumnDef]) -> Result<Filling, AllocError>
        ensures { IfOk result (IsEmpty (length columns.now)) }
    {
        let types: Vec<Ty> = columns.iter().map(|column| column.ty).collect(alloc)?;
        Filling::of_types(alloc, types)
    }

    /// No row yet. Each is to have a value of each of these types, or of another, which costs more.
    pub fn of_types(alloc: Global, types: Vec<Ty>) -> Result<Filling, AllocError>
        ensures { IfOk result (IsEmpty (length types.items)) }
    {
        Ok(Filling {
            pieces: Vec::new(alloc),
            columns: empty_columns(alloc, types.as_slice())?,
            types,
            begun: 0,
            len: 0,
        })
    }

    /// How many rows there are.
    pub fn len(&self) -> usize
        ensures len { result ≡ length self.now.rows }
        ensures small { result < 2 ^ 63 }
    {
        1024 * self.pieces.len() + self.len
    }

    /// Puts a value behind those of the row that is begun.
    pub fn push(&mut self, value: &Lent<'_>) -> Result<(), AllocError>
        requires { length self.old.begun < self.old.width }
        ensures { OnOk result (self.new ≡ with_value (owned value.now) self.old) }
    {
        let alloc = *self.pieces.allocator();
        self.columns[self.begun].push(alloc, value)?;
        self.begun += 1;
        Ok(())
    }

    /// Puts the row that is begun behind the others.
    pub fn end_row(&mut self) -> Result<(), AllocError>
        requires { length self.old.begun ≡ self.old.width }
        ensures { OnOk result (self.new ≡ with_row self.old) }
    {
        let alloc = *self.pieces.allocator();
        self.count_more(alloc, 1)?;
        if self.len < 1023 {
            self.begun = 0;
            self.len += 1;
            return Ok(());
        }
        let empty = empty_columns(alloc, self.types.as_slice())?;
        let full = mem::replace(&mut self.columns, empty);
        self.begun = 0;
        self.len = 0;
        self.pieces.push(piece_of(alloc, full)?)?;
        Ok(())
    }

    /// Puts a copy of a row behind the others.
    pub fn push_row(&mut self, row: &StoredRow<'_>) -> Result<(), AllocError>
        requires { CanTake (row_of row.now ∷ []) self.old }
        ensures { OnOk result (Adds (row_of row.now ∷ []) self.old self.new) }
    {
        for column in 0..row.len() {
            self.push(&row.lend(column))?;
        }
        self.end_row()
    }

    /// Puts 1,024 rows behind the others, whose columns these are.
    pub fn push_columns(&mut self, columns: Vec<AnyEncoded>) -> Result<(), AllocError>
        requires whole { IsWhole self.old }
        requires are { AreColumns (columns_in columns.items) 1024 }
        ensures { OnOk result (self.new ≡ with_rows (encoded_rows columns.items 1024) self.old) }
    {
        let alloc = *self.pieces.allocator();
        self.count_more(alloc, 1024)?;
        self.pieces.push(Piece::of_columns(alloc, columns, 1024)?)?;
        Ok(())
    }

    /// The rows that have ended.
    pub fn finish(self) -> Result<NewRows, AllocError>
        ensures { IfOk result (λ rows. rows ≡ self.rows) }
    {
        let alloc = *self.pieces.allocator();
        let tail = rows_in(alloc, self.columns.as_slice(), self.len)?;
        Ok(NewRows::new(self.pieces, tail))
    }

    /// Refuses rows more than can be counted, and no others.
    fn count_more(&self, alloc: Global, more: usize) -> Result<(), AllocError>
        requires { more ≤ 1024 }
        ensures ok { OnOk result (length self.now.rows + more < 2 ^ 63) }
        ensures refused { OnErr result (2 ^ 63 ≤ length self.now.rows + more) }
    {
        let count = self.len() + more;
        widened(alloc, count, count)?;
        Ok(())
    }
}

/// A column without values for each type.
fn empty_columns(alloc: Global, types: &[Ty]) -> Result<Vec<TypedColumn>, AllocError>
    ensures { IfOk result (λ columns. values_in columns.items ≡ replicate (length types.now) []) }
{
    let mut columns = Vec::with_capacity(alloc, types.len())?;
    for ty in types {
        columns.push(TypedColumn::new(alloc, *ty)?)?;
    }
    Ok(columns)
}

/// A piece of the rows of columns.
fn piece_of(alloc: Global, columns: Vec<TypedColumn>) -> Result<Piece, AllocError>
    requires { AreColumns (values_in columns.items) 1024 }
    ensures { IfOk result (λ p. p ≡ unmarked (rows_of_columns (values_in columns.items) 1024)) }
{
    let mut encoded = Vec::new(alloc);
    for column in columns {
        encoded.push(AnyEncoded::Plain(column.into_plain(alloc)?))?;
    }
    Piece::of_columns(alloc, encoded, 1024)
}

/// Copies of the first rows of columns.
fn rows_in(alloc: Global, columns: &[TypedColumn], len: usize) -> Result<Vec<Row>, AllocError>
    requires { AreOpen len (values_in columns.now) }
    ensures { IfOk result (λ rows. rows.items ≡ rows_of_columns (values_in columns.now) len) }
{
    let mut rows = Vec::with_capacity(alloc, len)?;
    for place in 0..len {
        let mut row = Row::with_capacity(alloc, columns.len())?;
        for column in columns {
            row.push(column.value_at(place).to_value(alloc)?)?;
        }
        rows.push(row)?;
    }
    Ok(rows)
}
