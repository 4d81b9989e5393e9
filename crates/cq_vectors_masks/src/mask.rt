//! The truth of a condition in each of at most 1,024 places.
//!
//! A mask is made once for a test and set by the `set_` calls, each from planes or from another mask. AND, OR and NOT
//! change a mask where it stands, 64 places at a time. `get` reads one place; a [`crate::Selection`] is set from the
//! places that are True. No call takes memory, and each costs the words of 1,024 bits.
ghost use Rattle.std.specs.Prelude.{[], length, map, replicate, slice_index, slice_index_or, take, ℕ, ◌<◌, ◌≡◌, ◌≤◌};
ghost use Rattle.std.specs.Simd.Lanes.{zip2};
ghost use Rattle.cq_values.specs.Truth.{and_truth, not_truth, or_truth, truth_of};
ghost use Rattle.cq_values.specs.declared.truth.Truth.TheVariants.{Unknown};
ghost use Rattle.cq_vectors_masks.specs.Selection.{where_true};
ghost use Rattle.cq_vectors_masks.specs.TruthMask.{known};
ghost use Rattle.cq_vectors_masks.specs.Walk.{all_places};

use crate::plane::Plane;
use crate::walk::keep_set;
use cq_values::Truth;
use std::marker::Model;
use std::mem::swap;

/// Two planes: where a condition is True, and where it is False. Both are clear where it is Unknown.
#[derive(Drop)]
pub struct TruthMask {
    trues: Plane,
    falses: Plane,
}

impl Model for TruthMask {
    ghost use Rattle.std.specs.Prelude.{List};
    ghost use Rattle.std.specs.Simd.Lanes.{zip2};
    ghost use Rattle.cq_values.specs.declared.truth.Truth.{Truth};
    ghost use Rattle.cq_vectors_masks.specs.TruthMask.{truth_by, Shows};

    ghost Value = { List Truth };

    ghost view = { λ m. zip2 truth_by m.trues m.falses };

    ghost invariant = { λ m. Shows m.trues m.falses (zip2 truth_by m.trues m.falses) };
}

impl TruthMask {
    pub fn new() -> TruthMask
        ensures { result ≡ [] }
    {
        TruthMask {
            trues: Plane::new(),
            falses: Plane::new(),
        }
    }

    pub fn len(&self) -> usize
        ensures len { result ≡ length self.now }
        ensures few { result ≤ 1024 }
    {
        self.trues.len()
    }

    pub fn get(&self, place: usize) -> Truth
        requires { place < 1024 }
        ensures { result ≡ slice_index_or self.now place Unknown }
    {
        match (self.trues.get(place), self.falses.get(place)) {
            (true, _) => Truth::True,
            (false, true) => Truth::False,
            (false, false) => Truth::Unknown,
        }
    }

    pub fn set_copy(&mut self, a: &TruthMask)
        ensures { self.new ≡ a.now }
    {
        self.trues.set_copy(&a.trues);
        self.falses.set_copy(&a.falses);
    }

    /// AND with another mask, in each place.
    pub fn and_with(&mut self, other: &TruthMask)
        requires { length self.old ≡ length other.now }
        ensures { self.new ≡ zip2 and_truth self.old other.now }
    {
        self.trues.and_with(&other.trues);
        self.falses.or_with(&other.falses);
    }

    /// OR with another mask, in each place.
    pub fn or_with(&mut self, other: &TruthMask)
        requires { length self.old ≡ length other.now }
        ensures { self.new ≡ zip2 or_truth self.old other.now }
    {
        self.trues.or_with(&other.trues);
        self.falses.and_with(&other.falses);
    }

    /// NOT in each place.
    pub fn negate(&mut self)
        ensures { self.new ≡ map not_truth self.old }
    {
        swap(&mut self.trues, &mut self.falses);
    }

    /// The answers of a test, and Unknown where a value is NULL.
    pub fn set_known(&mut self, answers: &Plane, nulls: &Plane)
        requires { length answers.now ≡ length nulls.now }
        ensures { self.new ≡ zip2 known answers.now nulls.now }
    {
        self.trues.set_and_not(answers, nulls);
        self.falses.set_neither(answers, nulls);
    }

    /// The answers of a test that is known everywhere, as IS NULL is.
    pub fn set_tested(&mut self, answers: &Plane)
        ensures { self.new ≡ map truth_of answers.now }
    {
        self.trues.set_copy(answers);
        self.falses.set_neither(answers, answers);
    }

    /// One truth in each place.
    pub fn set_all(&mut self, truth: Truth, len: usize)
        requires { len ≤ 1024 }
        ensures { self.new ≡ replicate len truth }
    {
        self.trues.set_all(truth.is_true(), len);
        self.falses.set_all(truth.not().is_true(), len);
    }

    /// Those of the places that are True, in order, and how many they are.
    pub(crate) fn keep_true(&self, places: &[u16], to: &mut [u16]) -> usize
        requires room { length places.now ≤ length to.old }
        requires small { (k : ℕ) → slice_index places.now k < 1024 }
        ensures few { result ≤ length places.now }
        ensures kept { take result to.new ≡ where_true self.now places.now }
    {
        keep_set(&self.trues, places, to)
    }

    /// All places that are True, in order, and how many they are.
    pub(crate) fn true_places(&self, to: &mut [u16]) -> usize
        requires { 1024 ≤ length to.old }
        ensures few { result ≤ 1024 }
        ensures whole { length self.now ≤ 1024 }
        ensures places { take result to.new ≡ where_true self.now all_places }
    {
        self.trues.set_places(to)
    }
}
