//! Walks over the set bits of words, and places kept by them.
ghost use Rattle.cq_vectors_masks.specs.Walk.{all_places, set_bits};
ghost use Rattle.cq_vectors_masks.specs.Plane.{is_set};
ghost use Rattle.std.specs.List.{filter};
ghost use Rattle.std.specs.Prelude.{false, length, slice_index, slice_index_or, take, ℕ, ◌+◌, ◌++◌, ◌<◌, ◌≡◌, ◌≤◌};

use crate::plane::Plane;

/// The places that are set, in order, and how many they are.
pub fn keep_set(plane: &Plane, places: &[u16], to: &mut [u16]) -> usize
    requires room { length places.now ≤ length to.old }
    requires small { (k : ℕ) → slice_index places.now k < 1024 }
    ensures few { result ≤ length places.now }
    ensures kept { take result to.new ≡ filter (λ p. slice_index_or plane.now p false) places.now }
{
    let mut n = 0;
    for i in 0..places.len() {
        let place = places[i];
        to[n] = place;
        n += plane.get(place as usize) as usize;
    }
    n
}

/// Writes the places of a word's set bits, the lowest first, and answers where the next goes.
pub(crate) fn walk_word(word: u64, base: usize, to: &mut [u16], start: usize) -> usize
    requires room { start + 64 ≤ length to.old }
    requires small { base + 64 ≤ 1024 }
    ensures few { result ≤ start + 64 }
    ensures walked { take result to.new ≡ take start to.old ++ set_bits 64 base word }
{
    let mut rest = word;
    let mut n = start;
    while rest != 0 {
        to[n] = base as u16 + rest.trailing_zeros() as u16;
        n += 1;
        rest &= rest - 1;
    }
    n
}

/// Writes the places of all set bits, and answers how many they are.
pub(crate) fn walk_words(words: &[u64; 16], to: &mut [u16]) -> usize
    requires { 1024 ≤ length to.old }
    ensures few { result ≤ 1024 }
    ensures places { take result to.new ≡ filter (is_set words.now) all_places }
{
    let mut n = 0;
    for k in 0..16 {
        n = walk_word(words[k], 64 * k, to, n);
    }
    n
}
