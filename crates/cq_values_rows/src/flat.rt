//! Rows whose values stand in one list.
ghost use Rattle.std.specs.Prelude.{◌++◌, ◌<◌, ◌≤◌, ◌∷◌, ◌≡◌, IfOk, OnOk, Some, [], drop, length, slice_get, take};
ghost use Rattle.std.specs.Vec.Iter.{into_iter_items};
ghost use Rattle.cq_values_rows.specs.Flat.{AreRisingFrom, IsPlaced, last_end, rows_from};

use crate::lent_row::LentRow;
use cq_values::{Row, Value};
use std::alloc::{AllocError, Global};
use std::marker::Model;
use std::vec::IntoIter;

/// Rows whose values stand in one list, row behind row, and behind them one that is only begun.
#[derive(Debug, Drop)]
pub struct FlatRows {
    values: Vec<Value>,
    /// Where each row ends.
    ends: Vec<usize>,
}

impl Model for FlatRows {
    ghost use Rattle.std.specs.Prelude.{length};
    ghost use Rattle.cq_values_rows.specs.Flat.{EndWithin, Flat, flat_of};

    ghost Value = { Flat };

    ghost view = { λ f. flat_of f.values.items f.ends.items };

    ghost invariant = { λ f. EndWithin f.ends.items (length f.values.items) };
}

impl FlatRows {
    #[tactic(auto, using(crate::proofs::Cutting::rows_counted), unfolding(crate::specs::Flat::rows_from, crate::specs::Flat::last_end, crate::specs::Flat::AreRisingFrom))]
    pub fn new(alloc: Global) -> FlatRows
        ensures rows { result.rows ≡ [] }
        ensures begun { result.begun ≡ [] }
    {
        FlatRows {
            values: Vec::new(alloc),
            ends: Vec::new(alloc),
        }
    }

    /// No rows, with room for so many rows of so many values each.
    #[tactic(auto, using(crate::proofs::Cutting::rows_counted), unfolding(crate::specs::Flat::rows_from, crate::specs::Flat::last_end, crate::specs::Flat::AreRisingFrom))]
    pub fn with_capacity(alloc: Global, rows: usize, width: usize) -> Result<FlatRows, AllocError>
        ensures rows { IfOk result (λ flat. flat.rows ≡ []) }
        ensures begun { IfOk result (λ flat. flat.begun ≡ []) }
    {
        let values = Vec::with_capacity(alloc, rows.saturating_mul(width))?;
        let ends = Vec::with_capacity(alloc, rows)?;
        Ok(FlatRows { values, ends })
    }

    /// Begins a row anew. What was begun is dropped.
    #[tactic(auto, using(crate::proofs::Cutting::rows_kept, crate::proofs::Cutting::none_begun, crate::proofs::Cutting::end_kept))]
    pub fn begin_row(&mut self)
        ensures rows { self.new.rows ≡ self.old.rows }
        ensures begun { self.new.begun ≡ [] }
    {
        let end = end_of(self.ends.as_slice());
        self.values.truncate(end);
    }

    /// Puts a value at the end of the row that is begun.
    #[tactic(auto, using(crate::proofs::Cutting::rows_longer, crate::proofs::Cutting::begun_longer))]
    pub fn push(&mut self, value: Value) -> Result<(), AllocError>
        ensures rows { OnOk result (self.new.rows ≡ self.old.rows) }
        ensures begun { OnOk result (self.new.begun ≡ self.old.begun ++ value ∷ []) }
    {
        self.values.push(value)?;
        Ok(())
    }

    /// Puts copies of these values at the end of the row that is begun. After an error some are missing.
    #[tactic(auto, using(crate::proofs::Cutting::rows_longer))]
    pub fn push_copies(&mut self, alloc: Global, values: &[Value]) -> Result<(), AllocError>
        ensures rows { OnOk result (self.new.rows ≡ self.old.rows) }
        ensures begun { OnOk result (self.new.begun ≡ self.old.begun ++ values.now) }
    {
        for value in values {
            self.push(value.copy(alloc)?)?;
        }
        Ok(())
    }

    /// Puts a copy of a row behind the others. After an error some of its values are begun.
    pub fn push_row(&mut self, alloc: Global, row: &LentRow<'_>) -> Result<(), AllocError>
        requires { self.old.begun ≡ [] }
        ensures rows { OnOk result (self.new.rows ≡ self.old.rows ++ row.now ∷ []) }
        ensures begun { OnOk result (self.new.begun ≡ []) }
    {
        for at in 0..row.len() {
            self.push(row.lend(at).to_value(alloc)?)?;
        }
        self.end_row()
    }

    /// Ends the row that is begun. The next one begins behind it.
    #[tactic(auto, using(crate::proofs::Cutting::rows_ended, crate::proofs::Cutting::last_ended, crate::proofs::Cutting::rising_ended, crate::proofs::Cutting::last_past))]
    pub fn end_row(&mut self) -> Result<(), AllocError>
        ensures rows { OnOk result (self.new.rows ≡ self.old.rows ++ self.old.begun ∷ []) }
        ensures begun { OnOk result (self.new.begun ≡ []) }
    {
        self.ends.push(self.values.len())?;
        Ok(())
    }

    /// How many rows are ended.
    #[tactic(auto, using(crate::proofs::Cutting::rows_counted))]
    pub fn len(&self) -> usize
        ensures { result ≡ length self.now.rows }
    {
        self.ends.len()
    }

    /// The row at a place.
    pub fn row(&self, place: usize) -> &[Value]
        requires { place < length self.now.rows }
        ensures { slice_get self.now.rows place ≡ Some result.now }
    {
        let (start, end) = bounds_of(self.ends.as_slice(), place);
        &self.values[start..end]
    }

    /// The rows that are ended, each in a list of its own. No value is copied.
    pub fn into_rows(self, alloc: Global) -> Result<Vec<Row>, AllocError>
        ensures { IfOk result (λ rows. rows.items ≡ self.rows) }
    {
        let FlatRows { values, ends } = self;
        cut_rows(alloc, ends.as_slice(), values.into_iter())
    }
}

/// Where the last row ends.
#[tactic(auto, using(crate::proofs::Cutting::end_last), unfolding(crate::specs::Flat::last_end))]
fn end_of(ends: &[usize]) -> usize
    ensures { result ≡ last_end 0 ends.now }
{
    if ends.is_empty() {
        0
    } else {
        ends[ends.len() - 1]
    }
}

/// Where the row at a place begins, and where it ends.
fn bounds_of(ends: &[usize], place: usize) -> (usize, usize)
    requires there { place < length ends.now }
    requires rising { AreRisingFrom 0 ends.now }
    ensures { IsPlaced ends.now place result.0 result.1 }
{
    if place == 0 {
        (0, ends[0])
    } else {
        (ends[place - 1], ends[place])
    }
}

/// Makes a row of the values up to each end.
fn cut_rows(alloc: Global, ends: &[usize], left: IntoIter<Value>) -> Result<Vec<Row>, AllocError>
    requires rising { AreRisingFrom 0 ends.now }
    requires within { last_end 0 ends.now ≤ length (into_iter_items left) }
    ensures { IfOk result (λ rows. rows.items ≡ rows_from 0 ends.now (into_iter_items left)) }
{
    let mut rows = Vec::with_capacity(alloc, ends.len())?;
    let mut left = left;
    let mut start = 0;
    for end in ends {
        let row = take_row(alloc, *end - start, &mut left)?;
        rows.push(row)?;
        start = *end;
    }
    Ok(rows)
}

/// A row of the next so many values.
#[tactic(auto, using(crate::proofs::Cutting::next_taken, crate::proofs::Cutting::next_dropped))]
fn take_row(alloc: Global, len: usize, left: &mut IntoIter<Value>) -> Result<Row, AllocError>
    requires { len ≤ length (into_iter_items left.old) }
    ensures row { IfOk result (λ row. row ≡ take len (into_iter_items left.old)) }
    ensures left { OnOk result (into_iter_items left.new ≡ drop len (into_iter_items left.old)) }
{
    let mut row = Row::with_capacity(alloc, len)?;
    for _value in 0..len {
        match left.next() {
            Some(value) => row.push(value)?,
            None => unreachable!(),
        }
    }
    Ok(row)
}
