//! Groups of rows, as they are added.
//!
//! `new` names the columns of GROUP BY and the aggregates; `add` takes the rows of a scan, any number of times; `rows`
//! gives the row of each group at the end, put into columns. An add costs a look-up a row, and a step for each aggregate
//! of it; memory grows with the groups alone. A total is exact, and told out of range only when the rows are asked for.
ghost use Rattle.std.specs.List.{AllByRecursion};
ghost use Rattle.std.specs.Prelude.{◌+◌, ◌++◌, ◌≡◌, ◌≤◌, IfErr, IfOk, List, OnOk, [], length};
ghost use Rattle.cq_model.specs.Sizes.{count_size};
ghost use Rattle.cq_values.specs.Value.{Row as Values};
ghost use Rattle.cq_hash_groups.specs.Exact.{AreExactOver};
ghost use Rattle.cq_hash_groups.specs.Groups.{AreGroups, CanBeShown, Holds, HoldsMore, IsGroupsFault};

use crate::adding::{add_all, first_slots};
use crate::keys::{first_groups, key_width, number_rows};
use crate::reading::read_again;
use crate::shown::{put_row, put_rows, shown_types};
use crate::told::told_slots;
use cq_hash_groups_slots::Slots;
use cq_hash_keys::KeyTable;
use cq_model::{Aggregate, ShowFault};
use cq_operators_scans::Scan;
use cq_segments_pieces::widened;
use cq_values::Seq;
use cq_vectors::Buffers;
use cq_writestore_rows::{Filling, NewRows};
use std::alloc::{AllocError, Global};
use std::marker::Model;

/// Groups of rows, as they were first met, with what each aggregate needs of them.
#[derive(Drop)]
pub struct GroupTable<'q> {
    keys: &'q Option<Seq<usize>>,
    aggregates: &'q [Aggregate],
    count: usize,
    found: KeyTable,
    slots: Vec<Slots>,
    /// The groups of the rows that were added last, for their room.
    numbers: Vec<usize>,
    /// Memory of what was worked out for the aggregates.
    buffers: Buffers,
    /// The columns that are read more than once of each row.
    again: Vec<usize>,
}

impl<'q> Model for GroupTable<'q> {
    ghost use Rattle.std.specs.Coded.{codes};
    ghost use Rattle.cq_model.specs.contracts.expr.Expr as expr;
    ghost use Rattle.cq_hash_groups.specs.Groups.{IsTable, StoredGroups, stored};

    ghost Value = { StoredGroups };

    ghost coded = { Prim.hlevel (codes, expr.the_row.coded) };

    ghost view = { λ t. stored t.keys.now t.aggregates.now t.count t.found.keys t.slots.items };

    ghost invariant = { λ t. IsTable t.keys.now t.found.width t.count t.slots.items };
}

impl<'q> GroupTable<'q> {
    /// The groups of no rows: without GROUP BY there is one.
    pub fn new(
        alloc: Global,
        keys: &'q Option<Seq<usize>>,
        aggregates: &'q [Aggregate],
    ) -> Result<GroupTable<'q>, AllocError>
        ensures holds { IfOk result (λ table. Holds table []) }
        ensures keys { IfOk result (λ table. table.keys ≡ keys.now) }
        ensures aggregates { IfOk result (λ table. table.aggregates ≡ aggregates.now) }
    {
        let again = read_again(alloc, keys, aggregates)?;
        let found = first_groups(alloc, keys)?;
        match first_slots(alloc, aggregates, found.len()) {
            Ok(slots) => Ok(GroupTable {
                keys,
                aggregates,
                count: 0,
                found,
                slots,
                numbers: Vec::new(alloc),
                buffers: Buffers::new(alloc),
                again,
            }),
            Err(fault) => {
                drop(found);
                Err(fault)
            }
        }
    }

    /// The columns of rows that are read more than once, and so had better be gathered before. No answer depends on them.
    pub fn read_again(&self) -> &[usize] {
        self.again.as_slice()
    }

    /// Adds rows to their groups. After an `Err` the table stands for no rows that one could name. More than 2^64 rows are
    /// refused: there is no memory for their count.
    pub fn add(&mut self, alloc: Global, scan: &Scan<'q>) -> Result<(), AllocError>
        requires exact { AllByRecursion (AreExactOver self.old.aggregates) scan.now }
        ensures holds { OnOk result (HoldsMore scan.now self.old self.new) }
        ensures count { OnOk result (self.new.count ≡ self.old.count + length scan.now) }
        ensures keys { self.new.keys ≡ self.old.keys }
        ensures aggregates { self.new.aggregates ≡ self.old.aggregates }
    {
        let count = widened(alloc, self.count, scan.len())?;
        number_rows(alloc, self.keys, scan, &mut self.found, &mut self.numbers)?;
        let groups = self.found.len();
        self.count = count;
        add_all(
            alloc,
            &mut self.buffers,
            self.aggregates,
            scan,
            groups,
            &self.numbers,
            &mut self.slots,
        )
    }

    /// The row of each group: its key, and then its aggregates.
    pub fn rows(&self, alloc: Global) -> Result<NewRows, ShowFault>
        ensures ok { (r : List Values) → Holds self.now r → IfOk result (AreGroups self.now r) }
        ensures range { (r : List Values) → Holds self.now r → OnOk result (CanBeShown self.now r) }
        ensures few { (r : List Values) → Holds self.now r → OnOk result (length r ≤ count_size) }
        ensures fault { (r : List Values) → Holds self.now r → IfErr result (IsGroupsFault self.now r) }
    {
        let width = key_width(self.keys);
        let groups = self.found.len();
        let told = told_slots(alloc, self.aggregates, &self.slots)?;
        let types = shown_types(alloc, &self.found, width, &told)?;
        let mut filling = Filling::of_types(alloc, types)?;
        let whole = groups / 1024;
        for block in 0..whole {
            put_rows(alloc, &self.found, width, &told, 1024 * block, &mut filling)?;
        }
        for group in 1024 * whole..groups {
            put_row(&self.found, width, &told, group, &mut filling)?;
        }
        Ok(filling.finish()?)
    }
}
