//! The changes of the last writes.
//!
//! A queue knows how many writes were accepted before those that it has the changes of. To put a change in costs what a
//! list costs; to drop one, its rows.
ghost use Rattle.std.specs.Prelude.{◌+◌, ◌++◌, ◌<◌, ◌∷◌, ◌≡◌, ◌≤◌, ◌^◌, [], OnOk, drop, length, slice_index_or};
ghost use Rattle.cq_engine_queue.specs.Queued.{IsSameQueue};

use crate::change::Change;
use std::alloc::{AllocError, Global};
use std::collections::VecDeque;
use std::marker::Model;

/// Changes in the order of their writes, behind those that were dropped.
#[derive(Drop)]
pub struct Queue {
    passed: u64,
    changes: VecDeque<Change>,
}

impl Model for Queue {
    ghost use Rattle.std.specs.Prelude.{◌-◌};
    ghost use Rattle.std.specs.VecDeque.{deque_capacity, deque_len};
    ghost use Rattle.cq_engine_queue.specs.Queued.{Queued};

    ghost Value = { Queued };

    ghost view = { λ q. record {
      passed = q.passed;
      changes = q.changes.items;
      room = deque_capacity q.changes - deque_len q.changes;
    } };
}

impl Queue {
    /// No change, where so many writes were accepted.
    pub fn new(alloc: Global, passed: u64) -> Queue
        ensures passed { result.passed ≡ passed }
        ensures none { result.changes ≡ [] }
    {
        Queue {
            passed,
            changes: VecDeque::new(alloc),
        }
    }

    /// How many writes came before those of the changes.
    pub fn passed(&self) -> u64
        ensures { result ≡ self.now.passed }
    {
        self.passed
    }

    pub fn len(&self) -> usize
        ensures { result ≡ length self.now.changes }
    {
        self.changes.len()
    }

    /// The change at a place, counted from the front.
    pub fn get(&self, place: usize) -> &Change
        requires { place < length self.now.changes }
        ensures { result.now ≡ slice_index_or self.now.changes place result.now }
    {
        &self.changes[place]
    }

    /// Makes room for one more change.
    pub fn reserve(&mut self) -> Result<(), AllocError>
        ensures ok { OnOk result (0 < self.new.room) }
        ensures same { IsSameQueue self.old self.new }
    {
        self.changes.reserve(1)
    }

    /// Puts a change behind the others, where there is room.
    pub fn push(&mut self, change: Change)
        requires { 0 < self.old.room }
        ensures passed { self.new.passed ≡ self.old.passed }
        ensures changes { self.new.changes ≡ self.old.changes ++ change ∷ [] }
    {
        self.changes.push_back_reserved(change);
    }

    /// Counts one write more, of which no change is kept, and drops all others.
    pub(crate) fn pass_all(&mut self)
        requires { self.old.passed + length self.old.changes + 1 < 2 ^ 64 }
        ensures passed { self.new.passed ≡ self.old.passed + length self.old.changes + 1 }
        ensures none { self.new.changes ≡ [] }
    {
        self.passed += self.changes.len() as u64 + 1;
        self.changes.truncate(0);
    }

    /// Drops so many changes from the front.
    pub(crate) fn trim(&mut self, count: usize)
        requires there { count ≤ length self.old.changes }
        requires range { self.old.passed + count < 2 ^ 64 }
        ensures passed { self.new.passed ≡ self.old.passed + count }
        ensures changes { self.new.changes ≡ drop count self.old.changes }
    {
        self.passed += count as u64;
        drop_front(&mut self.changes, count);
    }
}

/// Drops so many changes from the front.
fn drop_front(changes: &mut VecDeque<Change>, count: usize)
    requires { count ≤ length changes.old.items }
    ensures { changes.new.items ≡ drop count changes.old.items }
{
    let mut left = count;
    while left > 0 {
        drop(changes.pop_front());
        left -= 1;
    }
}
