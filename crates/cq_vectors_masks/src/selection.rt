//! The places that a scan goes on with.
//!
//! A selection is set to all places below a length, or to those where a mask is True; [`keep_true`] goes on with those
//! of another selection. `places` lends them, rising. No call takes memory; each costs one step a place.
ghost use Rattle.std.specs.List.{range_with_len};
ghost use Rattle.std.specs.Prelude.{[], length, take, ◌≡◌, ◌≤◌};
ghost use Rattle.cq_vectors_masks.specs.Selection.{AreRising, where_true};

use crate::mask::TruthMask;
use std::marker::Model;

/// Rising places below 1,024, at which rows still count.
#[derive(Drop)]
pub struct Selection {
    places: [u16; 1024],
    len: usize,
}

impl Model for Selection {
    ghost use Rattle.std.specs.Prelude.{List, take, ℕ, ◌≤◌};
    ghost use Rattle.cq_vectors_masks.specs.Selection.{AreRising};

    ghost Value = { List ℕ };

    ghost view = { λ s. take s.len s.places };

    ghost invariant = { λ s. (s.len ≤ 1024) × AreRising (take s.len s.places) };
}

impl Selection {
    pub fn new() -> Selection
        ensures { result ≡ [] }
    {
        Selection {
            places: [0; 1024],
            len: 0,
        }
    }

    pub fn len(&self) -> usize
        ensures len { result ≡ length self.now }
        ensures few { result ≤ 1024 }
    {
        self.len
    }

    pub fn places(&self) -> &[u16]
        ensures places { result.now ≡ self.now }
        ensures rising { AreRising self.now }
        ensures few { length self.now ≤ 1024 }
    {
        &self.places[..self.len]
    }

    /// All places below the length.
    pub fn set_all(&mut self, len: usize)
        requires { len ≤ 1024 }
        ensures { self.new ≡ range_with_len 0 len }
    {
        count_up(&mut self.places, len);
        self.len = len;
    }

    /// All places at which a condition is True.
    pub fn set_true(&mut self, mask: &TruthMask)
        ensures { self.new ≡ where_true mask.now (range_with_len 0 (length mask.now)) }
    {
        self.len = mask.true_places(&mut self.places);
    }
}

/// Those of the places at which a condition is True, without a branch.
pub fn keep_true(mask: &TruthMask, from: &Selection, to: &mut Selection)
    ensures { to.new ≡ where_true mask.now from.now }
{
    to.len = mask.keep_true(from.places(), &mut to.places);
}

fn count_up(to: &mut [u16; 1024], len: usize)
    requires { len ≤ 1024 }
    ensures { take len to.new ≡ range_with_len 0 len }
{
    for i in 0..len {
        to[i] = i as u16;
    }
}
