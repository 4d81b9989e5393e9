//! Truths of codes, by those of the entries that they name.
ghost use Rattle.cq_prims_lanes.specs.UpTo.{known_of};
ghost use Rattle.cq_prims_texts.specs.Named.{IsTold, is_one, named_unless};
ghost use Rattle.cq_vectors_stored.specs.Offsets.{offsets_in};
ghost use Rattle.std.specs.List.{All};
ghost use Rattle.std.specs.Prelude.{length, nat_eq, ◌<◌, ◌≡◌};
ghost use Rattle.std.specs.Simd.Lanes.{zip2};

use crate::named::{has_unknown, set_named, set_named_known};
use cq_prims_lanes::{set_equal_8, set_equal_16, set_equal_32, set_never};
use cq_values::Truth;
use cq_vectors_masks::{Plane, TruthMask};
use cq_vectors_stored::Offsets;

/// Which entries are True: none or one, and all others are False, or each is True or False, or it is not told.
#[derive(Clone, Copy)]
pub(crate) enum Trues {
    AtMostOne(Option<usize>),
    Known,
    Others,
}

/// The truth of the entry of each code, and Unknown where NULL stands: by lanes, where one entry alone is True.
pub(crate) fn set_by_codes(truths: &[Truth], codes: Offsets<'_>, nulls: &Plane, to: &mut TruthMask)
    requires known { All (λ code. code < length truths.now) (offsets_in codes) }
    requires same { length nulls.now ≡ length (offsets_in codes) }
    ensures { to.new ≡ zip2 (named_unless truths.now) (offsets_in codes.entry) nulls.now }
{
    set_told(trues_of(truths), truths, codes, nulls, to)
}

/// The same, where it is told which entries are True.
pub(crate) fn set_told(
    trues: Trues,
    truths: &[Truth],
    codes: Offsets<'_>,
    nulls: &Plane,
    to: &mut TruthMask,
)
    requires told { IsTold truths.now trues }
    requires known { All (λ code. code < length truths.now) (offsets_in codes) }
    requires same { length nulls.now ≡ length (offsets_in codes) }
    ensures { to.new ≡ zip2 (named_unless truths.now) (offsets_in codes.entry) nulls.now }
{
    match trues {
        Trues::AtMostOne(one) => set_one(one, codes, nulls, to),
        Trues::Known => match codes {
            Offsets::One(codes) => set_named_known(truths, codes, nulls, to),
            Offsets::Two(codes) => set_named_known(truths, codes, nulls, to),
            Offsets::Four(codes) => set_named_known(truths, codes, nulls, to),
        },
        Trues::Others => match codes {
            Offsets::One(codes) => set_named(truths, codes, nulls, to),
            Offsets::Two(codes) => set_named(truths, codes, nulls, to),
            Offsets::Four(codes) => set_named(truths, codes, nulls, to),
        },
    }
}

pub(crate) fn trues_of(truths: &[Truth]) -> Trues
    ensures { IsTold truths.now result }
{
    match one_true(truths) {
        Trues::Others => {
            if has_unknown(truths) {
                Trues::Others
            } else {
                Trues::Known
            }
        }
        told => told,
    }
}

/// The one that is True, if there are not more, and all others are False.
fn one_true(truths: &[Truth]) -> Trues
    ensures { IsTold truths.now result }
{
    let mut one = None;
    for place in 0..truths.len() {
        match (truths[place], one) {
            (Truth::False, _) => {}
            (Truth::True, None) => one = Some(place),
            _ => return Trues::Others,
        }
    }
    Trues::AtMostOne(one)
}

/// Whether each code is the one, if there is one, and Unknown where NULL stands.
fn set_one(one: Option<usize>, codes: Offsets<'_>, nulls: &Plane, to: &mut TruthMask)
    requires { length nulls.now ≡ length (offsets_in codes) }
    ensures { to.new ≡ known_of (is_one one) (offsets_in codes.entry) nulls.now }
{
    match one {
        None => set_never(nulls, to),
        Some(code) => set_equal(codes, code, nulls, to),
    }
}

/// Whether each code is the one, and Unknown where NULL stands.
fn set_equal(codes: Offsets<'_>, code: usize, nulls: &Plane, to: &mut TruthMask)
    requires { length nulls.now ≡ length (offsets_in codes) }
    ensures { to.new ≡ known_of (λ c. nat_eq c code) (offsets_in codes.entry) nulls.now }
{
    let code = code as u128;
    match codes {
        Offsets::One(codes) => set_equal_8(codes, code, nulls, to),
        Offsets::Two(codes) => set_equal_16(codes, code, nulls, to),
        Offsets::Four(codes) => set_equal_32(codes, code, nulls, to),
    }
}
