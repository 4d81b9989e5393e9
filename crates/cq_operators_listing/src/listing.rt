//! Listings: what ORDER BY and LIMIT show of rows that come in any order.
//!
//! `new` names the order, `add` takes the rows of a batch, any number of times, and `rows` gives the one list at the end.
//! The rows of all batches stand column by column. They are sorted by places; only those that are listed are copied, in
//! their order, column by column again. Without LIMIT all are kept and sorted once. With one of up to 1,000,000 the list is cut
//! when it has twice as many rows and 1,024 more, and a place whose first key stands behind the last row that is kept
//! becomes no row: that is asked of all places of a batch at once. So memory grows with the limit, and a row costs a
//! comparison or its part of a sort.
ghost use Rattle.std.specs.Bool.{OnFalse, OnTrue};
ghost use Rattle.std.specs.Prelude.{[], ◌++◌, ◌≡◌, ◌≤◌, IfSome, List, OnOk, Some, map};
ghost use Rattle.cq_values.specs.Value.{Row as Values};
ghost use Rattle.cq_vectors.specs.Batch.{row_at, rows_of};
ghost use Rattle.cq_operators_listing.specs.Front.{IsWorst};
ghost use Rattle.cq_operators_listing.specs.Places.{ArePlaces};
ghost use Rattle.cq_operators_listing.specs.Stored.{CanList, ListsAll, TakesIn};

use crate::arranging::first_rows;
use crate::by_numbers::first_key;
use crate::places::{places_before, rows_at};
use cq_model::Order;
use cq_values_rows::{LentRow, RowList};
use cq_vectors::{Batch, Vector};
use cq_vectors_masks::Selection;
use std::alloc::{AllocError, Global};
use std::marker::Model;
use std::mem::replace;

/// Rows as they come, of which those are kept that the list can still show.
#[derive(Drop)]
pub struct Listing<'q> {
    order: &'q Order,
    rows: RowList,
    /// How many rows in front are in order, where they are as many as LIMIT allows.
    front: Option<usize>,
}

impl<'q> Model for Listing<'q> {
    ghost use Rattle.std.specs.Prelude.{IfSome};
    ghost use Rattle.cq_operators_listing.specs.Front.{IsFront};
    ghost use Rattle.cq_operators_listing.specs.Stored.{StoredListing, kept_for};

    ghost Value = { StoredListing };

    ghost view = { λ l. kept_for l.order.now l.rows };

    ghost invariant = { λ l. IfSome l.front (IsFront (kept_for l.order.now l.rows)) };
}

impl<'q> Listing<'q> {
    pub fn new(alloc: Global, order: &'q Order) -> Listing<'q>
        ensures keys { result.keys ≡ order.now.keys }
        ensures limit { result.limit ≡ order.now.limit }
        ensures empty { CanList result [] }
    {
        Listing {
            order,
            rows: RowList::listed(Vec::new(alloc)),
            front: None,
        }
    }

    /// Takes in the rows of a batch. One that cannot be shown any more is not made.
    pub fn add(&mut self, alloc: Global, batch: &Batch<'_>) -> Result<(), AllocError>
        ensures keys { self.new.keys ≡ self.old.keys }
        ensures limit { self.new.limit ≡ self.old.limit }
        ensures ok { OnOk result (TakesIn self.old self.new (rows_of batch.now)) }
    {
        self.append_shown(alloc, batch)?;
        self.cut(alloc)
    }

    /// The one list that stands for all rows that were added.
    pub fn rows(self, alloc: Global) -> Result<RowList, AllocError>
        ensures { ListsAll self.entry result }
    {
        let Listing { order, rows, .. } = self;
        first_rows(alloc, order.keys.as_slice(), order.limit, &rows)
    }

    /// The last of the rows in front, where they are as many as LIMIT allows.
    fn worst(&self) -> Option<LentRow<'_>>
        ensures { IfSome result (λ worst. IsWorst self.now worst) }
    {
        match self.front {
            Some(count) if count > 0 && count <= self.rows.len() => Some(self.rows.row(count - 1)),
            _ => None,
        }
    }

    /// The places of a batch whose rows may be shown. Answers whether they are fewer than all.
    fn select_shown(&self, batch: &Batch<'_>, to: &mut Selection) -> bool
        ensures { OnTrue result (ArePlaces self.now batch.now to.new) }
    {
        let Some(worst) = self.worst() else {
            return false;
        };
        let key = first_key(self.order.keys.as_slice());
        match batch.columns.as_slice().get(key.column) {
            Some(values) => places_before(key, values, &worst, &batch.selection, to),
            None => false,
        }
    }

    /// Puts the rows of a batch that may be shown behind the others.
    fn append_shown(&mut self, alloc: Global, batch: &Batch<'_>) -> Result<(), AllocError>
        ensures keys { self.new.keys ≡ self.old.keys }
        ensures limit { self.new.limit ≡ self.old.limit }
        ensures ok { OnOk result (TakesIn self.old self.new (rows_of batch.now)) }
    {
        let mut shown = Selection::new();
        if self.select_shown(batch, &mut shown) {
            self.append(alloc, batch.columns.as_slice(), shown.places())
        } else {
            self.append(alloc, batch.columns.as_slice(), batch.selection.places())
        }
    }

    /// Puts the rows of the places behind the others.
    fn append(
        &mut self,
        alloc: Global,
        columns: &[Vector<'_>],
        places: &[u16],
    ) -> Result<(), AllocError>
        ensures keys { self.new.keys ≡ self.old.keys }
        ensures limit { self.new.limit ≡ self.old.limit }
        ensures rows { OnOk result (self.new.rows ≡ self.old.rows ++ map (row_at columns.now) places.now) }
    {
        let front = self.front;
        self.front = None;
        let more = rows_at(alloc, columns, places)?;
        self.rows.append(alloc, more)?;
        self.front = front;
        Ok(())
    }

    /// Keeps the first rows alone, where there are many more than LIMIT allows.
    fn cut(&mut self, alloc: Global) -> Result<(), AllocError>
        ensures keys { self.new.keys ≡ self.old.keys }
        ensures limit { self.new.limit ≡ self.old.limit }
        ensures ok { OnOk result ((all : List Values) → CanList self.old all → CanList self.new all) }
    {
        if let Some(count) = cut_size(self.order.limit) {
            if self.rows.len() >= 2 * count + 1024 {
                self.cut_to(alloc, count)?;
            }
        }
        Ok(())
    }

    fn cut_to(&mut self, alloc: Global, count: usize) -> Result<(), AllocError>
        requires { self.old.limit ≡ Some count }
        ensures keys { self.new.keys ≡ self.old.keys }
        ensures limit { self.new.limit ≡ self.old.limit }
        ensures ok { OnOk result ((all : List Values) → CanList self.old all → CanList self.new all) }
    {
        self.front = None;
        let all = replace(&mut self.rows, RowList::listed(Vec::new(alloc)));
        self.rows = first_rows(alloc, self.order.keys.as_slice(), Some(count as u128), &all)?;
        self.front = front_within(count, self.rows.len());
        Ok(())
    }
}

/// The limit, where it is small enough to keep a few times as many rows alone.
fn cut_size(limit: Option<u128>) -> Option<usize>
    ensures { IfSome result (λ count. (limit ≡ Some count) × (count ≤ 1000000)) }
{
    match limit {
        Some(limit) if limit <= 1_000_000 => Some(limit as usize),
        _ => None,
    }
}

/// As many rows in front as LIMIT allows, where so many are there.
fn front_within(count: usize, len: usize) -> Option<usize>
    ensures { IfSome result (λ front. (front ≡ count) × (count ≤ len)) }
{
    if count <= len { Some(count) } else { None }
}
