//! A table under its number and its name.
//!
//! A [`NamedTable`] is a table of `cq_table` that statements find: its number is drawn once and never changes, and its
//! rows fit its columns. A write finds its rows first, once (`find`), lends or copies them for the views (`chosen`,
//! `images`), and then changes them by one call, which leaves them as they were where it fails. Each call costs what the
//! same call of `cq_table` does.
ghost use Rattle.std.specs.List.{AllByRecursion};
ghost use Rattle.std.specs.Prelude.{◌++◌, ◌+◌, ◌≡◌, ◌≤◌, [], IfOk, OnErr, OnOk, length};
ghost use Rattle.cq_segments_pieces.specs.Rows.{stored_rows};
ghost use Rattle.cq_values.specs.Texts.{is_text};
ghost use Rattle.cq_model_state.specs.Fitting.{FitsColumns};
ghost use Rattle.cq_model_state.specs.State.{empty_table, holding};
ghost use Rattle.cq_model.specs.Width.{IsNarrowIn};
ghost use Rattle.cq_table.specs.Checks.{AreImages, AreNarrowSets};
ghost use Rattle.cq_table.specs.Found.{AreLiveAt, AreThere};
ghost use Rattle.cq_engine_tables.specs.HeldTables.{Exchanges, Grows, MarkIn, MergeTo, MoveBy, held, lengths_of, nothing};
ghost use Rattle.cq_engine_tables.specs.Chosen.{ChecksChosen, IsChosen, LeavesChosen, rows_chosen, stored_of};

use cq_model::{Assignment, Cond};
use cq_segments_pieces::StoredRow;
use cq_table::{Exchange, Found, TableFault};
use cq_values::{ColumnDef, Row, Seq, Text};
use cq_writestore_rows::NewRows;
use std::alloc::{AllocError, Global};
use std::marker::Model;

/// Rows that fit their columns, under a name. Contracts see the one list that stands for their bag, and how it
/// is stored.
#[derive(Drop)]
pub struct NamedTable {
    number: u64,
    name: Text,
    stored: cq_table::Table,
}

impl Model for NamedTable {
    ghost use Rattle.cq_engine_tables.specs.HeldTables.{HeldTable, held};

    ghost Value = { HeldTable };

    ghost view = { λ t. held t.number t.name t.stored };
}

impl NamedTable {
    /// A table of this name without rows, that may have so many of them, under the number that it drew.
    pub fn new(
        alloc: Global,
        number: u64,
        name: Text,
        columns: Seq<ColumnDef>,
        sort: Seq<usize>,
        max_rows: u64,
    ) -> NamedTable
        ensures table { result.is ≡ empty_table number name columns sort }
        ensures lengths { lengths_of result ≡ nothing }
    {
        NamedTable {
            number,
            name,
            stored: cq_table::Table::new(alloc, columns, sort, max_rows),
        }
    }

    pub fn is_named(&self, name: &str) -> bool
        ensures { result ≡ is_text self.now.is.name name.now }
    {
        self.name.as_str() == name
    }

    pub fn name(&self) -> &str
        ensures { result.now ≡ self.now.is.name }
    {
        self.name.as_str()
    }

    pub fn number(&self) -> u64
        ensures { result ≡ self.now.is.number }
    {
        self.number
    }

    /// The table itself, to be read.
    pub fn table(&self) -> &cq_table::Table
        ensures { held self.now.is.number self.now.is.name result.now ≡ self.now }
    {
        &self.stored
    }

    /// Where the rows stand that WHERE keeps. It is good until the table is written, moved or merged.
    pub fn find(&self, alloc: Global, condition: &Option<Cond>) -> Result<Found, AllocError>
        requires { AllByRecursion (IsNarrowIn condition.now) self.now.is.rows }
        ensures { IfOk result (IsChosen condition.now self.now) }
    {
        self.stored.find(alloc, condition)
    }

    /// The rows that were found, where they are stored.
    pub fn chosen(&self, alloc: Global, found: &Found) -> Result<Vec<StoredRow<'_>>, AllocError>
        requires { AreThere found.now (stored_of self.now) }
        ensures { IfOk result (λ rows. stored_rows rows.items ≡ rows_chosen self.now found.now) }
    {
        self.stored.chosen(alloc, found)
    }

    /// Adds all of these rows, or none. The table may have so many rows, and has room for them.
    pub fn insert(&mut self, alloc: Global, max_rows: u64, rows: NewRows) -> Result<(), AllocError>
        requires fitting { AllByRecursion (FitsColumns self.old.is.columns) rows }
        requires room { length self.old.is.rows + length rows ≤ max_rows }
        ensures ok { OnOk result (self.new.is ≡ holding (self.old.is.rows ++ rows) self.old.is) }
        ensures lengths { OnOk result (Grows (length rows) self.old self.new) }
        ensures err { OnErr result (self.new ≡ self.old) }
    {
        self.stored.limit(max_rows);
        self.stored.append(alloc, rows)
    }

    /// Takes the rows that were found away. It cannot fail, and takes no memory.
    pub fn delete(&mut self, found: &Found)
        requires { AreLiveAt found.now (stored_of self.old) }
        ensures left { LeavesChosen found.now [] self.old self.new }
        ensures lengths { MarkIn (lengths_of self.old) (lengths_of self.new) }
    {
        self.stored.delete(found);
    }

    /// Copies of the rows that were found, and their images, where these may be stored. Each expression reads the old row.
    pub fn images(
        &self,
        alloc: Global,
        assignments: &[Assignment],
        found: &Found,
    ) -> Result<Exchange, TableFault>
        requires live { AreLiveAt found.now (stored_of self.now) }
        requires narrow { AllByRecursion (AreNarrowSets assignments.now) self.now.is.rows }
        ensures checked { ChecksChosen assignments.now found.now self.now result }
        ensures images { IfOk result (AreImages assignments.now (rows_chosen self.now found.now)) }
    {
        self.stored.images(alloc, assignments, found)
    }

    /// Takes so many rows from the front of the write store to segments. No row of the bag changes.
    pub fn move_front(&mut self, alloc: Global, count: u128) -> Result<(), AllocError>
        ensures same { self.new.is ≡ self.old.is }
        ensures lengths { OnOk result (MoveBy count (lengths_of self.old) (lengths_of self.new)) }
        ensures err { OnErr result (self.new ≡ self.old) }
    {
        self.stored.move_step(alloc, count)
    }

    /// Makes the segments anew of their live rows. No row of the bag changes.
    pub fn merge(&mut self, alloc: Global) -> Result<(), AllocError>
        ensures same { self.new.is ≡ self.old.is }
        ensures lengths { OnOk result (MergeTo (lengths_of self.old) (lengths_of self.new)) }
        ensures err { OnErr result (self.new ≡ self.old) }
    {
        self.stored.merge_step(alloc)
    }

    /// How many rows the write store has, and how many rows of segments have a mark. It takes no memory.
    pub fn lengths(&self) -> (usize, usize)
        ensures { result ≡ ((lengths_of self.now).write_len, (lengths_of self.now).marked_len) }
    {
        (self.stored.write_len(), self.stored.marked_len())
    }

    /// Puts these rows in place of those that were found, which are as many.
    pub fn replace(
        &mut self,
        alloc: Global,
        found: &Found,
        images: Vec<Row>,
    ) -> Result<(), AllocError>
        requires live { AreLiveAt found.now (stored_of self.old) }
        requires count { length images.items ≡ length found.now }
        requires fitting { AllByRecursion (FitsColumns self.old.is.columns) images.items }
        ensures ok { OnOk result (LeavesChosen found.now images.items self.old self.new) }
        ensures lengths { OnOk result (Exchanges (length images.items) self.old self.new) }
        ensures err { OnErr result (self.new ≡ self.old) }
    {
        self.stored.replace(alloc, found, images)
    }
}
