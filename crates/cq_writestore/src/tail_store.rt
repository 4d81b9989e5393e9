//! The newest rows of a write store, which no piece has.
//!
//! Each call costs its rows, and `take_front` a shift of those that stay.
ghost use Rattle.std.specs.Prelude.{IfOk, OnOk, [], drop, length, ◌++◌, ◌+◌, ◌<◌, ◌^◌, ◌≡◌, ◌≤◌, ◌∷◌};
ghost use Rattle.cq_segments_pieces.specs.Marked.{marked_count, unmarked, with_mark};
ghost use Rattle.cq_writestore.specs.Writes.{tail_rows};

use crate::tail::Tail;
use cq_values::Row;
use std::alloc::{AllocError, Global};
use std::marker::Model;

/// Rows in order of insertion, each with its mark.
#[derive(Drop)]
pub(crate) struct TailStore {
    rows: Vec<Row>,
    marks: Vec<bool>,
    marked: usize,
}

impl Model for TailStore {
    ghost use Rattle.std.specs.Prelude.{min, vec_capacity, vec_len, ◌-◌};
    ghost use Rattle.cq_segments_pieces.specs.Marked.{AreCounted, with_flags};
    ghost use Rattle.cq_writestore.specs.Writes.{Writes};

    ghost Value = { Writes };

    ghost view = { λ s. record {
      rows = with_flags s.rows.items s.marks.items;
      room = min (vec_capacity s.rows - vec_len s.rows) (vec_capacity s.marks - vec_len s.marks);
    } };

    ghost invariant = { λ s. AreCounted s.rows.items s.marks.items s.marked };
}

impl TailStore {
    pub(crate) fn new(alloc: Global) -> TailStore
        ensures { result.rows ≡ [] }
    {
        TailStore {
            rows: Vec::new(alloc),
            marks: Vec::new(alloc),
            marked: 0,
        }
    }

    /// Rows without a mark.
    pub(crate) fn of(alloc: Global, rows: Vec<Row>) -> Result<TailStore, AllocError>
        ensures { IfOk result (λ store. store.rows ≡ unmarked rows.items) }
    {
        let mut store = TailStore::new(alloc);
        store.reserve(rows.len())?;
        push_all(&mut store, rows);
        Ok(store)
    }

    /// Where its memory comes from.
    pub(crate) fn allocator(&self) -> Global {
        *self.rows.allocator()
    }

    pub(crate) fn len(&self) -> usize
        ensures len { result ≡ length self.now.rows }
        ensures small { result < 2 ^ 63 }
    {
        self.rows.len()
    }

    /// How many rows have a mark.
    pub(crate) fn marked_len(&self) -> usize
        ensures len { result ≡ marked_count self.now.rows }
        ensures few { result ≤ length self.now.rows }
    {
        self.marked
    }

    /// The rows, where they are stored.
    pub(crate) fn tail(&self) -> Tail<'_>
        ensures rows { tail_rows result ≡ self.now.rows }
        ensures len { length result.rows.now ≡ length self.now.rows }
        ensures marks { length result.marks.now ≡ length self.now.rows }
    {
        Tail {
            rows: self.rows.as_slice(),
            marks: self.marks.as_slice(),
        }
    }

    /// Makes room for so many rows more. Its rows stay as they are, also after an error.
    pub(crate) fn reserve(&mut self, additional: usize) -> Result<(), AllocError>
        ensures room { OnOk result (additional ≤ self.new.room) }
        ensures rows { self.new.rows ≡ self.old.rows }
        ensures kept { self.old.room ≤ self.new.room }
    {
        self.rows.reserve(additional)?;
        self.marks.reserve(additional)
    }

    /// Puts a row behind the others, for which there is room.
    pub(crate) fn push_reserved(&mut self, row: Row)
        requires { 0 < self.old.room }
        ensures rows { self.new.rows ≡ self.old.rows ++ unmarked (row ∷ []) }
        ensures room { self.old.room ≤ self.new.room + 1 }
    {
        self.rows.push_reserved(row);
        self.marks.push_reserved(false);
    }

    /// Marks a row. One that has a mark keeps it.
    pub(crate) fn mark(&mut self, place: usize)
        requires { place < length self.old.rows }
        ensures rows { self.new.rows ≡ with_mark place self.old.rows }
        ensures room { self.new.room ≡ self.old.room }
    {
        if !self.marks[place] {
            self.marks[place] = true;
            self.marked += 1;
        }
    }

    /// Drops the first rows, those with a mark too, and all where they are fewer.
    pub(crate) fn take_front(&mut self, count: usize)
        ensures rows { self.new.rows ≡ drop count self.old.rows }
        ensures room { self.old.room ≤ self.new.room }
    {
        let count = count.min(self.rows.len());
        let gone = count - self.tail().split_at(count).0.live_len();
        let left = self.rows.len() - count;
        self.rows.rotate_left(count);
        self.rows.truncate(left);
        self.marks.rotate_left(count);
        self.marks.truncate(left);
        self.marked -= gone;
    }
}

/// Puts rows behind those of a tail, which has room for them.
pub(crate) fn push_all(tail: &mut TailStore, rows: Vec<Row>)
    requires { length rows.items ≤ tail.old.room }
    ensures { tail.new.rows ≡ tail.old.rows ++ unmarked rows.items }
{
    for row in rows {
        tail.push_reserved(row);
    }
}
