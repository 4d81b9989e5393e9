//! A table in memory.
//!
//! `new` makes one without rows. A write begins with `find`, which works WHERE out once and gives the places of the rows
//! that it keeps; `chosen` lends these rows, `delete` marks them, and `images` with `replace` exchange them. `insert` puts
//! rows into the write store, `move_step` and `merge_step` make segments, and `rows` lends all live rows. WHERE costs a
//! pass over these, 1,024 at a time; a mark some steps.
ghost use Rattle.std.specs.List.{AllByRecursion};
ghost use Rattle.std.specs.Prelude.{◌++◌, ◌+◌, ◌≡◌, ◌≤◌, [], IfOk, OnErr, OnOk, length};
ghost use Rattle.cq_model_bags.specs.Canonical.{bag_of};
ghost use Rattle.cq_model.specs.Width.{IsNarrowIn};
ghost use Rattle.cq_model_state.specs.Fitting.{FitsColumns};
ghost use Rattle.cq_segments_pieces.specs.Rows.{stored_rows};
ghost use Rattle.cq_table.specs.Changes.{Deletes, Exchanges, LeavesFound, MarksOnly, with_written};
ghost use Rattle.cq_table.specs.Checks.{HasRoom, IsChecked, no_room, too_many};
ghost use Rattle.cq_table.specs.Found.{AreLiveAt, AreThere, IsFound, PicksChosen, chosen_count, found_rows};
ghost use Rattle.cq_table.specs.Table.{IsSound, limited_to, live_rows, marked_len, stored_in, table_rows, without_rows, write_len};
ghost use Rattle.cq_table_columns.specs.Stored.{all_rows, stored_marked};

use crate::fault::TableFault;
use crate::finding::found_places;
use crate::found::Found;
use crate::moving::count_marks;
use crate::placing::{mark_all, rows_at};
use cq_model::Cond;
use cq_segments::Segment;
use cq_segments_pieces::StoredRow;
use cq_table_columns::Stored;
use cq_values::{ColumnDef, Seq};
use cq_writestore::WriteStore;
use cq_writestore_rows::NewRows;
use std::alloc::{AllocError, Global};
use std::marker::Model;

/// The columns of a table, and those by which its segments are sorted.
#[derive(Drop)]
pub struct Layout {
    pub columns: Seq<ColumnDef>,
    pub sort: Seq<usize>,
}

/// Rows that fit the columns: in segments, and the newest in a write store. How many of them have no mark is counted.
#[derive(Drop)]
pub struct Table {
    pub layout: Layout,
    pub max_rows: u64,
    pub live: usize,
    pub segments: Vec<Segment>,
    pub written: WriteStore,
}

impl Model for Table {
    ghost use Rattle.cq_table.specs.Table.{IsKept, StoredTable, table_of};

    ghost Value = { StoredTable };

    ghost view = { λ t. table_of t.layout t.max_rows t.segments.items t.written.rows };

    ghost invariant = { λ t. IsKept (table_of t.layout t.max_rows t.segments.items t.written.rows) t.live };
}

impl Table {
    /// A table without rows, that may have so many of them.
    pub fn new(alloc: Global, columns: Seq<ColumnDef>, sort: Seq<usize>, max_rows: u64) -> Table
        ensures { result ≡ without_rows columns sort max_rows }
    {
        Table {
            layout: Layout { columns, sort },
            max_rows,
            live: 0,
            segments: Vec::new(alloc),
            written: WriteStore::new(alloc),
        }
    }

    pub fn columns(&self) -> &[ColumnDef]
        ensures { result.now ≡ self.now.columns }
    {
        self.layout.columns.as_slice()
    }

    /// The columns by which segments are sorted.
    pub fn sort(&self) -> &[usize]
        ensures { result.now ≡ self.now.sort }
    {
        self.layout.sort.as_slice()
    }

    /// How many rows have no mark.
    pub fn len(&self) -> usize
        ensures { result ≡ length (table_rows self.now) }
    {
        self.live
    }

    /// How many rows the write store has, those with a mark too. It takes no memory.
    pub fn write_len(&self) -> usize
        ensures { result ≡ write_len self.now }
    {
        self.written.len()
    }

    /// How many rows of segments have a mark. It takes no memory.
    pub fn marked_len(&self) -> usize
        ensures { result ≡ marked_len self.now }
    {
        count_marks(self.segments.as_slice())
    }

    /// The live rows, where they are stored.
    pub fn rows(&self) -> Stored<'_>
        ensures stored { stored_marked result ≡ stored_in self.now }
        ensures rows { all_rows result ≡ live_rows self.now }
        ensures sound { IsSound self.now }
    {
        Stored::new(self.segments.as_slice(), self.written.rows(), self.live)
    }

    /// Where the rows stand that WHERE keeps.
    pub fn find(&self, alloc: Global, condition: &Option<Cond>) -> Result<Found, AllocError>
        requires { AllByRecursion (IsNarrowIn condition.now) (table_rows self.now) }
        ensures found { IfOk result (IsFound condition.now self.now) }
        ensures live { IfOk result (λ found. AreLiveAt found (stored_in self.now)) }
        ensures there { IfOk result (λ found. AreThere found (stored_in self.now)) }
        ensures chosen { IfOk result (PicksChosen condition.now self.now) }
        ensures count { IfOk result (λ found. length found ≡ chosen_count condition.now self.now) }
    {
        let _small = self.written.len();
        let places = found_places(alloc, condition, &self.rows())?;
        Ok(Found::new(places))
    }

    /// The rows at these places, where they are stored.
    pub fn chosen(&self, alloc: Global, found: &Found) -> Result<Vec<StoredRow<'_>>, AllocError>
        requires { AreThere found.now (stored_in self.now) }
        ensures { IfOk result (λ rows. stored_rows rows.items ≡ found_rows (stored_in self.now) found.now) }
    {
        rows_at(
            alloc,
            self.segments.as_slice(),
            self.written.rows(),
            found.places(),
        )
    }

    /// Lets the table have so many rows from now on. It has no more already.
    pub fn limit(&mut self, max_rows: u64)
        requires { length (table_rows self.old) ≤ max_rows }
        ensures { self.new ≡ limited_to max_rows self.old }
    {
        self.max_rows = max_rows;
    }

    /// Refuses more rows than the table may have, where so many are added.
    pub fn check_room(&self, added: usize) -> Result<(), TableFault>
        ensures { IsChecked (no_room self.now added) result }
    {
        check_room(self.max_rows, self.live, added)
    }

    /// Adds all of these rows, or none.
    pub fn insert(&mut self, alloc: Global, rows: NewRows) -> Result<(), TableFault>
        requires { AllByRecursion (FitsColumns self.old.columns) rows }
        ensures room { IsChecked (no_room self.old (length rows)) result }
        ensures ok { OnOk result (self.new ≡ with_written rows self.old) }
        ensures bag { OnOk result (table_rows self.new ≡ bag_of (table_rows self.old ++ rows)) }
        ensures err { OnErr result (self.new ≡ self.old) }
    {
        self.check_room(rows.len())?;
        self.append(alloc, rows)?;
        Ok(())
    }

    /// Adds all of these rows, or none, where the table may have them.
    pub fn append(&mut self, alloc: Global, rows: NewRows) -> Result<(), AllocError>
        requires fitting { AllByRecursion (FitsColumns self.old.columns) rows }
        requires room { HasRoom self.old (length rows) }
        ensures ok { OnOk result (self.new ≡ with_written rows self.old) }
        ensures bag { OnOk result (table_rows self.new ≡ bag_of (table_rows self.old ++ rows)) }
        ensures err { OnErr result (self.new ≡ self.old) }
    {
        let (count, _most) = (rows.len(), self.max_rows);
        let columns = self.layout.columns.as_slice();
        self.written.append(alloc, rows, columns)?;
        self.live += count;
        Ok(())
    }

    /// Marks the rows at these places. It cannot fail, and takes no memory.
    pub fn delete(&mut self, found: &Found)
        requires { AreLiveAt found.now (stored_in self.old) }
        ensures marks { Exchanges found.now [] self.old self.new }
        ensures left { LeavesFound found.now [] self.old self.new }
    {
        mark_all(&mut self.segments, &mut self.written, found.places());
        self.live -= found.len();
    }

    /// Marks the rows that WHERE keeps, and tells how many they were.
    pub fn delete_where(
        &mut self,
        alloc: Global,
        condition: &Option<Cond>,
    ) -> Result<usize, AllocError>
        requires { AllByRecursion (IsNarrowIn condition.now) (table_rows self.old) }
        ensures count { IfOk result (λ count. count ≡ chosen_count condition.now self.old) }
        ensures left { OnOk result (Deletes condition.now self.old self.new) }
        ensures marks { OnOk result (MarksOnly condition.now self.old self.new) }
        ensures err { OnErr result (self.new ≡ self.old) }
    {
        let found = self.find(alloc, condition)?;
        self.delete(&found);
        Ok(found.len())
    }
}

/// Refuses more rows than a table may have, where some are stored and some are added.
pub fn check_room(max_rows: u64, stored: usize, added: usize) -> Result<(), TableFault>
    ensures { IsChecked (too_many max_rows (stored + added)) result }
{
    if u128::from(max_rows) < stored as u128 + added as u128 {
        Err(TableFault::Full)
    } else {
        Ok(())
    }
}
