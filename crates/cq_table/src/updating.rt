//! Rows of a table that UPDATE replaces.
//!
//! `images` works the images out and copies the old rows; `replace` marks these and puts the images into the write
//! store. `update_where` is both, behind `find`. Each expression reads the old row. An update costs a copy of each row
//! and of its image.
ghost use Rattle.std.specs.List.{AllByRecursion};
ghost use Rattle.std.specs.Prelude.{◌≡◌, IfOk, OnErr, OnOk, length};
ghost use Rattle.cq_model_state.specs.Fitting.{FitsColumns};
ghost use Rattle.cq_table.specs.Changes.{Exchanges, LeavesFound, Updates};
ghost use Rattle.cq_table.specs.Checks.{AreImages, AreNarrowSets, CanWorkOut, ChecksFound, DoFit, IsChecked, chosen_fault, found_fault};
ghost use Rattle.cq_table.specs.Found.{AreLiveAt, chosen_count, rows_found};
ghost use Rattle.cq_table.specs.Table.{stored_in, table_rows};

use crate::fault::TableFault;
use crate::found::Found;
use crate::images::{check_values, images};
use crate::placing::mark_all;
use crate::table::Table;
use cq_model::{Assignment, Cond};
use cq_values::Row;
use cq_writestore_rows::{NewRows, copies};
use std::alloc::{AllocError, Global};

/// Copies of the rows that an UPDATE takes, and the rows that come in their places.
pub type Exchange = (Vec<Row>, Vec<Row>);

impl Table {
    /// Copies of the rows at these places, and their images, where these may be stored. Each expression reads the old
    /// row.
    pub fn images(
        &self,
        alloc: Global,
        assignments: &[Assignment],
        found: &Found,
    ) -> Result<Exchange, TableFault>
        requires live { AreLiveAt found.now (stored_in self.now) }
        requires narrow { AllByRecursion (AreNarrowSets assignments.now) (table_rows self.now) }
        ensures checked { IsChecked (found_fault self.now assignments.now found.now) result }
        ensures found { ChecksFound assignments.now found.now self.now result }
        ensures images { IfOk result (AreImages assignments.now (rows_found self.now found.now)) }
    {
        let chosen = self.chosen(alloc, found)?;
        let gone = copies(alloc, &chosen)?;
        check_values(self.columns(), assignments, &gone)?;
        let images = images(alloc, assignments, &gone)?;
        Ok((gone, images))
    }

    /// Marks the rows at these places and puts others, which are as many, into the write store: all of it, or nothing.
    pub fn replace(
        &mut self,
        alloc: Global,
        found: &Found,
        images: Vec<Row>,
    ) -> Result<(), AllocError>
        requires live { AreLiveAt found.now (stored_in self.old) }
        requires count { length images.items ≡ length found.now }
        requires fitting { AllByRecursion (FitsColumns self.old.columns) images.items }
        ensures ok { OnOk result (Exchanges found.now images.items self.old self.new) }
        ensures left { OnOk result (LeavesFound found.now images.items self.old self.new) }
        ensures err { OnErr result (self.new ≡ self.old) }
    {
        let columns = self.layout.columns.as_slice();
        self.written.append(alloc, NewRows::of(images), columns)?;
        mark_all(&mut self.segments, &mut self.written, found.places());
        Ok(())
    }

    /// Puts the image of each row that WHERE keeps in its place, where the images may be stored, and tells how many they
    /// were: all of it, or nothing. Each expression reads the old row.
    pub fn update_where(
        &mut self,
        alloc: Global,
        assignments: &[Assignment],
        condition: &Option<Cond>,
    ) -> Result<usize, TableFault>
        requires work { CanWorkOut assignments.now condition.now (table_rows self.old) }
        requires fit { DoFit self.old.columns assignments.now condition.now (table_rows self.old) }
        ensures checked { IsChecked (chosen_fault self.old assignments.now condition.now) result }
        ensures count { IfOk result (λ count. count ≡ chosen_count condition.now self.old) }
        ensures updated { OnOk result (Updates assignments.now condition.now self.old self.new) }
        ensures err { OnErr result (self.new ≡ self.old) }
    {
        let found = self.find(alloc, condition)?;
        let (_gone, images) = self.images(alloc, assignments, &found)?;
        self.replace(alloc, &found, images)?;
        Ok(found.len())
    }
}
