//! The rows of a table that are not yet in a segment.
//!
//! A store begins empty. `reserve` makes room, and `push_reserved` puts a row behind the others: so what may fail comes
//! before what changes the rows. `append` puts many there, and makes pieces of 1,024 rows as soon as there are as many;
//! pieces that it is given are taken as they are, where all older rows are in pieces, and else their values go into
//! columns anew. `mark` deletes a row, `take_front` drops the first ones once they are moved, and `rows` lends all of them.
//! Each costs its rows, and a step a piece; `append` also up to 1,023 older rows, which it puts into a piece, and
//! `take_front` shifts those that stay and are in no piece.
ghost use Rattle.std.specs.Prelude.{OnErr, OnOk, [], drop, length, ◌++◌, ◌+◌, ◌<◌, ◌^◌, ◌≡◌, ◌≤◌, ◌∷◌};
ghost use Rattle.cq_segments_pieces.specs.Columns.{AreWide};
ghost use Rattle.cq_segments_pieces.specs.Marked.{marked_count, rows_of, unmarked, with_mark};
ghost use Rattle.cq_writestore.specs.Writes.{with_flags_behind, written_rows};
ghost use Rattle.cq_writestore_rows.specs.NewRows.{NoneMarked};

use crate::piece_store::PieceStore;
use crate::refilled::refilled;
use crate::tail_store::{TailStore, push_all};
use crate::written::Written;
use cq_segments_pieces::widened;
use cq_values::{ColumnDef, Row};
use cq_writestore_rows::NewRows;
use std::alloc::{AllocError, Global};
use std::marker::Model;
use std::mem;

/// Rows in order of insertion, each with its mark: first those in pieces, and behind them the newest.
#[derive(Drop)]
pub struct WriteStore {
    pieces: PieceStore,
    tail: TailStore,
    room: usize,
}

impl Model for WriteStore {
    ghost use Rattle.std.specs.Prelude.{◌++◌};
    ghost use Rattle.cq_writestore.specs.Writes.{HasRoom, Writes};

    ghost Value = { Writes };

    ghost view = { λ s. record { rows = s.pieces ++ s.tail.rows; room = s.room } };

    ghost invariant = { λ s. HasRoom s.pieces s.tail s.room };
}

impl WriteStore {
    pub fn new(alloc: Global) -> WriteStore
        ensures { result.rows ≡ [] }
    {
        WriteStore {
            pieces: PieceStore::new(alloc),
            tail: TailStore::new(alloc),
            room: 0,
        }
    }

    /// How many rows there are, with a mark or without.
    pub fn len(&self) -> usize
        ensures len { result ≡ length self.now.rows }
        ensures small { result < 2 ^ 63 }
    {
        self.pieces.len() + self.tail.len()
    }

    /// How many rows have a mark.
    pub fn marked_len(&self) -> usize
        ensures len { result ≡ marked_count self.now.rows }
        ensures few { result ≤ length self.now.rows }
    {
        self.pieces.marked_len() + self.tail.marked_len()
    }

    /// The rows, where they are stored.
    pub fn rows(&self) -> Written<'_>
        ensures { written_rows result ≡ self.now.rows }
    {
        Written {
            pieces: self.pieces.pieces(),
            tail: self.tail.tail(),
        }
    }

    /// Makes room for so many rows more. Its rows stay as they are, also after an error.
    pub fn reserve(&mut self, additional: usize) -> Result<(), AllocError>
        ensures room { OnOk result (additional ≤ self.new.room) }
        ensures rows { self.new.rows ≡ self.old.rows }
        ensures kept { self.old.room ≤ self.new.room }
    {
        self.count_more(additional)?;
        self.tail.reserve(additional)?;
        self.room = self.room.max(additional);
        Ok(())
    }

    /// Puts a row behind the others, for which there is room.
    pub fn push_reserved(&mut self, row: Row)
        requires { 0 < self.old.room }
        ensures rows { self.new.rows ≡ self.old.rows ++ unmarked (row ∷ []) }
        ensures room { self.old.room ≤ self.new.room + 1 }
    {
        self.tail.push_reserved(row);
        self.room -= 1;
    }

    /// Puts rows for these columns behind the others, all of them or none.
    pub fn append(
        &mut self,
        alloc: Global,
        rows: NewRows,
        columns: &[ColumnDef],
    ) -> Result<(), AllocError>
        requires wide { AreWide (length columns.now) (rows_of self.old.rows ++ rows) }
        ensures ok { OnOk result (self.new.rows ≡ self.old.rows ++ unmarked rows) }
        ensures err { OnErr result (self.new.rows ≡ self.old.rows) }
    {
        self.count_more(rows.len())?;
        if self.tail.len() + rows.len() < 1024 {
            return self.append_few(rows.into_rows(alloc)?);
        }
        let held = self.pieces.len();
        let all = refilled(alloc, self.tail.tail().rows, rows, columns)?;
        let (made, behind) = all.into_parts();
        let tail = TailStore::of(alloc, behind)?;
        self.pieces.append(made)?;
        let older = mem::replace(&mut self.tail, tail);
        self.room = 0;
        self.mark_behind(held, older.tail().marks);
        Ok(())
    }

    /// Marks a row. One that has a mark keeps it.
    pub fn mark(&mut self, place: usize)
        requires { place < length self.old.rows }
        ensures rows { self.new.rows ≡ with_mark place self.old.rows }
        ensures room { self.new.room ≡ self.old.room }
    {
        let held = self.pieces.len();
        if place < held {
            self.pieces.mark(place);
        } else {
            self.tail.mark(place - held);
        }
    }

    /// Drops the first rows, those with a mark too, and all where they are fewer.
    pub fn take_front(&mut self, count: usize)
        ensures rows { self.new.rows ≡ drop count self.old.rows }
        ensures room { self.old.room ≤ self.new.room }
    {
        let held = self.pieces.len();
        self.pieces.take_front(count);
        self.tail.take_front(count.saturating_sub(held));
    }

    /// Puts rows behind those of the tail, all of them or none.
    fn append_few(&mut self, rows: Vec<Row>) -> Result<(), AllocError>
        requires { length self.old.rows + length rows.items < 2 ^ 63 }
        ensures ok { OnOk result (self.new.rows ≡ self.old.rows ++ unmarked rows.items) }
        ensures err { OnErr result (self.new.rows ≡ self.old.rows) }
    {
        self.tail.reserve(rows.len())?;
        push_all(&mut self.tail, rows);
        self.room = 0;
        Ok(())
    }

    /// Marks those rows behind so many others whose flags are set.
    fn mark_behind(&mut self, held: usize, flags: &[bool])
        requires there { held + length flags.now ≤ length self.old.rows }
        requires fresh { NoneMarked (drop held self.old.rows) }
        ensures { self.new.rows ≡ with_flags_behind held flags.now self.old.rows }
    {
        let _count = self.len();
        for place in 0..flags.len() {
            if flags[place] {
                self.mark(held + place);
            }
        }
    }

    /// Refuses more rows than can be counted, and no fewer.
    fn count_more(&self, additional: usize) -> Result<(), AllocError>
        ensures ok { OnOk result (length self.now.rows + additional < 2 ^ 63) }
        ensures refused { OnErr result (2 ^ 63 ≤ length self.now.rows + additional) }
    {
        let alloc = self.tail.allocator();
        let count = widened(alloc, self.len(), additional)?;
        widened(alloc, count, count)?;
        Ok(())
    }
}
