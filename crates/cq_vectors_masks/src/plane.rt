//! Flags of at most 1,024 places, 64 to a word, as a plane that is set by operations on whole words.
//!
//! A plane grows by `push`, a flag at a time, or is set at once: from other planes of its length, or from a test of
//! each place ([`WordTest`]). `get` reads a flag and `is_clear` tells that none is set. No call takes memory: a push is
//! a write of one bit, and the others go over 16 words.
ghost use Rattle.std.specs.Bool.{OnTrue};
ghost use Rattle.std.specs.List.{filter, range_with_len};
ghost use Rattle.std.specs.Prelude.{[], ◌++◌, ◌∷◌, length, map, min, nat_lt, replicate, slice_index_or, take, false, ℕ, ◌&&◌, ◌+◌, ◌*◌, ◌-◌, ◌<◌, ◌^◌, ◌≡◌, ◌≤◌};
ghost use Rattle.std.specs.Simd.Lanes.{mask_l, zip2};
ghost use Rattle.cq_vectors_masks.specs.Walk.{all_places};
ghost use Rattle.cq_vectors_masks.specs.Plane.{IsPushed, Makes, MakesBelow, and_not, both, either, is_set, neither};

use crate::place_test::{Everywhere, PlaceTest, WordTest};
use crate::walk::walk_words;
use std::marker::Model;

/// A flag for each place, the first 64 in the first word.
#[derive(Drop)]
pub struct Plane {
    words: [u64; 16],
    len: usize,
}

impl Model for Plane {
    ghost use Rattle.std.specs.Prelude.{Bool, List, ◌≤◌};
    ghost use Rattle.cq_vectors_masks.specs.Plane.{flags, Packs};

    ghost Value = { List Bool };

    ghost view = { λ p. flags p.words p.len };

    ghost invariant = { λ p. (p.len ≤ 1024) × Packs p.words (flags p.words p.len) };
}

impl Plane {
    pub fn new() -> Plane
        ensures { result ≡ [] }
    {
        Plane {
            words: [0; 16],
            len: 0,
        }
    }

    pub fn len(&self) -> usize
        ensures len { result ≡ length self.now }
        ensures few { result ≤ 1024 }
    {
        self.len
    }

    pub fn get(&self, place: usize) -> bool
        requires { place < 1024 }
        ensures { result ≡ slice_index_or self.now place false }
    {
        self.words[place / 64] >> (place % 64) & 1 == 1
    }

    /// Whether no place is set, so that NULLs need no thought.
    pub fn is_clear(&self) -> bool
        ensures { OnTrue result ((place : ℕ) → slice_index_or self.now place false ≡ false) }
    {
        let clear = [0; 16];
        self.words == clear
    }

    /// A flag for one place more. A flag that is not set is no write into the words.
    pub fn push(&mut self, flag: bool)
        requires { length self.old < 1024 }
        ensures { self.new ≡ self.old ++ flag ∷ [] }
    {
        push_bit(&mut self.words, self.len, flag);
        self.len += 1;
    }

    /// The places that are set, in order, and how many they are.
    pub(crate) fn set_places(&self, to: &mut [u16]) -> usize
        requires { 1024 ≤ length to.old }
        ensures few { result ≤ 1024 }
        ensures whole { length self.now ≤ 1024 }
        ensures places { take result to.new ≡ filter (λ p. slice_index_or self.now p false) all_places }
    {
        walk_words(&self.words, to)
    }

    pub fn set_copy(&mut self, a: &Plane)
        ensures { self.new ≡ a.now }
    {
        self.words = a.words;
        self.len = a.len;
    }

    /// Where both are set.
    pub fn and_with(&mut self, other: &Plane)
        requires { length self.old ≡ length other.now }
        ensures { self.new ≡ zip2 both self.old other.now }
    {
        and_words(&mut self.words, &other.words);
    }

    /// Where one is set.
    pub fn or_with(&mut self, other: &Plane)
        requires { length self.old ≡ length other.now }
        ensures { self.new ≡ zip2 either self.old other.now }
    {
        or_words(&mut self.words, &other.words);
    }

    /// Where one of two others is set.
    pub fn set_or(&mut self, a: &Plane, b: &Plane)
        requires { length a.now ≡ length b.now }
        ensures { self.new ≡ zip2 either a.now b.now }
    {
        self.set_copy(a);
        self.or_with(b);
    }

    /// Where the first is set and the second is not.
    pub fn set_and_not(&mut self, a: &Plane, b: &Plane)
        requires { length a.now ≡ length b.now }
        ensures { self.new ≡ zip2 and_not a.now b.now }
    {
        and_not_words(&a.words, &b.words, &mut self.words);
        self.len = a.len;
    }

    /// Where none is set.
    pub fn set_neither(&mut self, a: &Plane, b: &Plane)
        requires { length a.now ≡ length b.now }
        ensures { self.new ≡ zip2 neither a.now b.now }
    {
        neither_words(&a.words, &b.words, a.len, &mut self.words);
        self.len = a.len;
    }

    /// One flag in each place.
    pub fn set_all(&mut self, flag: bool, len: usize)
        requires { len ≤ 1024 }
        ensures { self.new ≡ replicate len flag }
    {
        self.set_where(&Everywhere { flag }, len);
    }

    /// Where the test holds, of the first places.
    pub fn set_where<T: WordTest>(&mut self, test: &T, len: usize)
        requires few { len ≤ 1024 }
        requires there { len ≤ T.places test.now }
        ensures { self.new ≡ map (T.holds test.now) (range_with_len 0 len) }
    {
        words_where(test, len, &mut self.words);
        self.len = len;
    }
}

fn push_bit(words: &mut [u64; 16], place: usize, flag: bool)
    requires { place < 1024 }
    ensures { IsPushed place flag words.old words.new }
{
    if !flag {
        return;
    }
    words[place / 64] |= 1 << (place % 64);
}

// Words are made in an array of their own and copied at the end: then the compiler makes several of them at once.

fn and_words(to: &mut [u64; 16], other: &[u64; 16])
    ensures { Makes both to.old other.now to.new }
{
    let mut words = [0; 16];
    for k in 0..16 {
        words[k] = to[k] & other[k];
    }
    *to = words;
}

fn or_words(to: &mut [u64; 16], other: &[u64; 16])
    ensures { Makes either to.old other.now to.new }
{
    let mut words = [0; 16];
    for k in 0..16 {
        words[k] = to[k] | other[k];
    }
    *to = words;
}

fn and_not_words(a: &[u64; 16], b: &[u64; 16], to: &mut [u64; 16])
    ensures { Makes and_not a.now b.now to.new }
{
    let mut words = [0; 16];
    for k in 0..16 {
        words[k] = a[k] & !b[k];
    }
    *to = words;
}

fn neither_words(a: &[u64; 16], b: &[u64; 16], len: usize, to: &mut [u64; 16])
    ensures { MakesBelow len neither a.now b.now to.new }
{
    let mut words = [0; 16];
    for k in 0..16 {
        words[k] = ones(len.saturating_sub(64 * k)) & !(a[k] | b[k]);
    }
    *to = words;
}

/// The first n bits, or all.
fn ones(n: usize) -> u64
    ensures { result ≡ 2 ^ min n 64 - 1 }
{
    if n < 64 { (1u64 << n) - 1 } else { u64::MAX }
}

fn words_where<T: WordTest>(test: &T, len: usize, to: &mut [u64; 16])
    requires { len ≤ T.places test.now }
    ensures { (p : ℕ) → p < 1024 → is_set to.new p ≡ nat_lt p len && T.holds test.now p }
{
    for k in 0..16 {
        to[k] = word_where(test, 64 * k, len);
    }
}

/// The answers of the places from `from` on, before `len` and at most 64.
fn word_where<T: WordTest>(test: &T, from: usize, len: usize) -> u64
    requires few { from < 1024 }
    requires there { len ≤ T.places test.now }
    ensures { result ≡ mask_l (map (T.holds test.now) (range_with_len from (min (len - from) 64))) }
{
    if len <= from {
        return 0;
    }
    if len - from < 64 {
        return answers(test, from, len - from);
    }
    test.word(from)
}

/// The answers of n places, one at a time, the first in the lowest bit.
pub fn answers<T: PlaceTest>(test: &T, from: usize, n: usize) -> u64
    requires few { n ≤ 64 }
    requires there { from + n ≤ T.places test.now }
    requires small { from + n < 2 ^ 64 }
    ensures { result ≡ mask_l (map (T.holds test.now) (range_with_len from n)) }
{
    let mut word = 0;
    for i in 0..n {
        word |= flag_bit(test.at(from + i), i);
    }
    word
}

fn flag_bit(flag: bool, i: usize) -> u64
    requires { i < 64 }
    ensures { result ≡ mask_l (flag ∷ []) * 2 ^ i }
{
    (flag as u64) << i
}
