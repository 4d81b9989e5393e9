//! The different values of groups.
//!
//! `put` takes values in the groups of their numbers. All values stand in one table of keys, each with the number of its
//! group, so each is there once a group, and the texts of a dictionary are read once. A count a group rises by one for
//! each key that is new. A value that is known costs the look-up of a key of two columns; memory grows with the keys
//! alone. NULL has a key as well, and no part in a count.
ghost use Rattle.std.specs.Prelude.{OnErr, OnOk, [], length, replicate, slice_index_or, ◌++◌, ◌≡◌};
ghost use Rattle.cq_hash_groups_sums.specs.Puts.{AreNumbers, grown, put_all};
ghost use Rattle.cq_hash_groups_distinct.specs.Sets.{put_value};

use crate::counting::count_new;
use crate::meeting::meet;
use cq_hash_keys::KeyTable;
use cq_vectors::Vector;
use cq_vectors_masks::Plane;
use std::alloc::{AllocError, Global};
use std::marker::Model;

/// The different values of each group, by its number.
#[derive(Drop)]
pub struct ValueSets {
    /// The number of the group and the value, each pair once.
    met: KeyTable,
    counts: Vec<u64>,
    /// The groups of the values that were put in last, for their room.
    groups: Vec<i64>,
    none: Plane,
    keys: Vec<usize>,
}

impl Model for ValueSets {
    ghost use Rattle.std.specs.Prelude.{List, length};
    ghost use Rattle.cq_values.specs.declared.value.Value.{Value as Datum};
    ghost use Rattle.cq_hash_groups_distinct.specs.Sets.{AreCounted, sets_in};

    ghost Value = { List (List Datum) };

    ghost view = { λ s. sets_in (length s.counts.items) s.met.keys };

    ghost invariant = { λ s. AreCounted s.met.width s.met.keys s.counts.items };
}

impl ValueSets {
    /// No groups. Takes no memory.
    pub fn new(alloc: Global) -> ValueSets
        ensures { result ≡ [] }
    {
        ValueSets {
            met: KeyTable::new(alloc, 2),
            counts: Vec::new(alloc),
            groups: Vec::new(alloc),
            none: Plane::new(),
            keys: Vec::new(alloc),
        }
    }

    /// Makes so many groups of them, where a new one has no values.
    pub fn grow(&mut self, groups: usize) -> Result<(), AllocError>
        ensures ok { OnOk result (self.new ≡ grown [] groups self.old) }
        ensures err { OnErr result (self.new ≡ self.old) }
    {
        let missing = groups.saturating_sub(self.counts.len());
        push_zeros(&mut self.counts, missing)
    }

    /// Puts the values into the groups of their numbers. After an `Err` no group is left.
    pub fn put(
        &mut self,
        alloc: Global,
        numbers: &[usize],
        values: &Vector<'_>,
    ) -> Result<(), AllocError>
        requires there { AreNumbers (length self.old) numbers.now }
        requires same { length numbers.now ≡ length values.now }
        ensures { OnOk result (self.new ≡ put_all put_value [] numbers.now values.now self.old) }
    {
        let _width = self.met.width();
        let before = self.met.len();
        let met = meet(
            alloc,
            &mut self.met,
            self.counts.len(),
            numbers,
            values,
            &mut self.groups,
            &mut self.none,
            &mut self.keys,
        );
        match met {
            Ok(()) => {
                count_new(&self.met, before, &mut self.counts);
                Ok(())
            }
            Err(fault) => {
                self.met = KeyTable::new(alloc, 2);
                self.counts.clear();
                Err(fault)
            }
        }
    }

    /// How many different values a group has.
    pub fn count(&self, group: usize) -> u64
        ensures { result ≡ length (slice_index_or self.now group []) }
    {
        match self.counts.get(group) {
            Some(count) => *count,
            None => 0,
        }
    }
}

/// So many groups more, which have no values.
fn push_zeros(counts: &mut Vec<u64>, missing: usize) -> Result<(), AllocError>
    ensures ok { OnOk result (counts.new.items ≡ counts.old.items ++ replicate missing 0) }
    ensures err { OnErr result (counts.new.items ≡ counts.old.items) }
{
    counts.reserve(missing)?;
    for _ in 0..missing {
        counts.push_reserved(0);
    }
    Ok(())
}
