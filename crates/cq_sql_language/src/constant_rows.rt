//! The rows of an INSERT, whose constants stand in one list.
//!
//! A row is begun and its constants are pushed, row after row; then the rows are read by their places from 0. Room is
//! asked for at the start, a row is lent at once, whichever it is, and none has a list of its own.
ghost use Rattle.std.specs.Prelude.{◌++◌, ◌<◌, ◌∷◌, ◌≡◌, IfOk, OnOk, Some, [], length, slice_get};
ghost use Rattle.cq_sql_language.specs.ConstantRows.{AreRising, IsPlaced, onto_last};

use crate::statement::Constant;
use std::alloc::{AllocError, Global};
use std::marker::Model;

/// Rows of constants. All constants stand in one list, row behind row, so that a row takes no memory of its own.
#[derive(Debug, Drop)]
pub struct ConstantRows {
    constants: Vec<Constant>,
    /// Where each row begins. It goes on to where the next one does.
    starts: Vec<usize>,
}

impl Model for ConstantRows {
    ghost use Rattle.std.specs.Prelude.{List, length};
    ghost use Rattle.cq_sql_language.specs.declared.statement.Constant.{Constant as Entry};
    ghost use Rattle.cq_sql_language.specs.ConstantRows.{AreRising, rows_at};

    ghost Value = { List (List Entry) };

    ghost view = { λ r. rows_at r.starts.items r.constants.items };

    ghost invariant = { λ r. AreRising r.starts.items (length r.constants.items) };
}

impl ConstantRows {
    /// No rows, with room for so many with so many constants in all.
    #[tactic(auto, unfolding(crate::specs::ConstantRows::rows_at, crate::specs::ConstantRows::AreRising))]
    pub fn with_capacity(
        alloc: Global,
        rows: usize,
        constants: usize,
    ) -> Result<ConstantRows, AllocError>
        ensures { IfOk result (λ made. made ≡ []) }
    {
        let constants = Vec::with_capacity(alloc, constants)?;
        let starts = Vec::with_capacity(alloc, rows)?;
        Ok(ConstantRows { constants, starts })
    }

    /// Begins a row behind the others.
    #[tactic(auto, using(crate::proofs::Cuts::begun_at, crate::proofs::Cuts::begun_rising))]
    pub fn begin_row(&mut self) -> Result<(), AllocError>
        ensures { OnOk result (self.new ≡ self.old ++ [] ∷ []) }
    {
        self.starts.push(self.constants.len())?;
        Ok(())
    }

    /// Puts a constant at the end of the last row.
    #[inline(always)]
    #[tactic(auto, using(crate::proofs::Cuts::last_longer, crate::proofs::Cuts::rising_longer))]
    pub fn push(&mut self, constant: Constant) -> Result<(), AllocError>
        requires { 0 < length self.old }
        ensures { OnOk result (self.new ≡ onto_last constant self.old) }
    {
        self.constants.push(constant)?;
        Ok(())
    }

    #[tactic(auto, using(crate::proofs::Cuts::rows_counted))]
    pub fn len(&self) -> usize
        ensures { result ≡ length self.now }
    {
        self.starts.len()
    }

    /// The row at a place.
    pub fn row(&self, place: usize) -> &[Constant]
        requires { place < length self.now }
        ensures { slice_get self.now place ≡ Some result.now }
    {
        let (start, end) = bounds_of(self.starts.as_slice(), place, self.constants.len());
        &self.constants[start..end]
    }
}

/// Where the row at a place begins, and where it ends, in a list of so many.
#[tactic(auto, using(crate::proofs::Cuts::placed_inside, crate::proofs::Cuts::placed_last))]
fn bounds_of(starts: &[usize], place: usize, len: usize) -> (usize, usize)
    requires there { place < length starts.now }
    requires rising { AreRising starts.now len }
    ensures { IsPlaced starts.now len place result.0 result.1 }
{
    let next = place + 1;
    if next < starts.len() {
        (starts[place], starts[next])
    } else {
        (starts[place], len)
    }
}
