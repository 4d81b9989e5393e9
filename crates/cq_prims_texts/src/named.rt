//! Truths of entries, in the places that name them.
//!
//! A condition is asked once of each entry, and its truth then stands in each place whose number names the entry.
ghost use Rattle.cq_prims_texts.specs.Named.{HasNoUnknown, named_unless};
ghost use Rattle.std.specs.Bool.{OnFalse};
ghost use Rattle.std.specs.List.{All};
ghost use Rattle.std.specs.Prelude.{List, length, slice_index_or, ℕ, ◌<◌, ◌≡◌};
ghost use Rattle.std.specs.Simd.Lanes.{zip2};

use crate::named_tests::{NamesTrue, NamesUnknown};
use cq_prims_lanes::set_known_by;
use cq_values::Truth;
use cq_vectors_masks::{Plane, TruthMask};

/// A number of one width that names an entry. Contracts see a list of them as natural numbers.
pub trait Naming: Copy {
    ghost numbers: { List Self → List ℕ };

    fn at(list: &[Self], place: usize) -> usize
        requires { place < length (numbers list.now) }
        ensures { result ≡ slice_index_or (numbers list.now) place 0 };
}

impl Naming for u8 {
    ghost numbers = { λ list. list };

    fn at(list: &[u8], place: usize) -> usize {
        usize::from(list[place])
    }
}

impl Naming for u16 {
    ghost numbers = { λ list. list };

    fn at(list: &[u16], place: usize) -> usize {
        usize::from(list[place])
    }
}

impl Naming for u32 {
    ghost numbers = { λ list. list };

    fn at(list: &[u32], place: usize) -> usize {
        list[place] as usize
    }
}

impl Naming for u64 {
    ghost numbers = { λ list. list };

    fn at(list: &[u64], place: usize) -> usize {
        list[place] as usize
    }
}

/// The truth of the entry that each number names, and Unknown where NULL stands. Takes no memory.
pub fn set_named<N: Naming>(entries: &[Truth], numbers: &[N], nulls: &Plane, to: &mut TruthMask)
    requires known { All (λ n. n < length entries.now) (N.numbers numbers.now) }
    requires same { length nulls.now ≡ length (N.numbers numbers.now) }
    ensures { to.new ≡ zip2 (named_unless entries.now) (N.numbers numbers.now) nulls.now }
{
    if !has_unknown(entries) {
        return set_named_known(entries, numbers, nulls, to);
    }
    let trues = NamesTrue { entries, numbers };
    let mut unknowns = Plane::new();
    let mut not_known = Plane::new();
    unknowns.set_where(&NamesUnknown { entries, numbers }, nulls.len());
    not_known.set_or(&unknowns, nulls);
    set_known_by(&trues, &not_known, to)
}

/// The same, where none of the entries is Unknown.
pub(crate) fn set_named_known<N: Naming>(
    entries: &[Truth],
    numbers: &[N],
    nulls: &Plane,
    to: &mut TruthMask,
)
    requires none { HasNoUnknown entries.now }
    requires known { All (λ n. n < length entries.now) (N.numbers numbers.now) }
    requires same { length nulls.now ≡ length (N.numbers numbers.now) }
    ensures { to.new ≡ zip2 (named_unless entries.now) (N.numbers numbers.now) nulls.now }
{
    set_known_by(&NamesTrue { entries, numbers }, nulls, to)
}

pub(crate) fn has_unknown(entries: &[Truth]) -> bool
    ensures { OnFalse result (HasNoUnknown entries.now) }
{
    for entry in entries {
        if matches!(entry, Truth::Unknown) {
            return true;
        }
    }
    false
}
