//! Planes, masks and selections of the lengths at which words begin and end.
ghost use Rattle.std.specs.Prelude.{length, ◌≡◌, ◌≤◌};

use cq_values::Truth;
use cq_vectors_masks::{Plane, Selection, TruthMask, keep_true};
use std::test::Fail;

/// A plane of a length whose first place is set, and its last.
fn with_ends(len: usize) -> Plane
    requires { len ≤ 1024 }
    ensures { length result ≡ len }
{
    let mut plane = Plane::new();
    for place in 0..len {
        plane.push(place == 0 || place == len - 1);
    }
    plane
}

#[test]
fn every_length_has_its_ends_and_nothing_behind(rt: HostRuntime) {
    // the length, its last place, and how many places are set
    let cases = [
        (0, 0, 0),
        (1, 0, 1),
        (63, 62, 2),
        (64, 63, 2),
        (65, 64, 2),
        (1023, 1022, 2),
        (1024, 1023, 2),
    ];
    for (len, last, count) in cases {
        assert!(rt; len <= 1024 && last < 1024);
        let plane = with_ends(len);
        let mut mask = TruthMask::new();
        mask.set_tested(&plane);
        let mut selection = Selection::new();
        selection.set_true(&mask);
        assert!(rt;
            plane.len() == len && plane.get(last) == (len > 0),
            "length {len}"
        );
        assert!(rt; selection.len() == count, "length {len}");
        assert!(rt; plane.is_clear() == (len == 0), "length {len}");
    }
}

#[test]
fn unknown_everywhere_selects_nothing(rt: HostRuntime) {
    for len in [0, 1, 63, 64, 65, 1023, 1024] {
        assert!(rt; len <= 1024);
        let mut mask = TruthMask::new();
        mask.set_all(Truth::Unknown, len);
        mask.negate();
        let mut selection = Selection::new();
        selection.set_true(&mask);
        assert!(rt; mask.len() == len && selection.len() == 0, "length {len}");
    }
}

#[test]
fn a_mask_keeps_the_places_of_a_selection(rt: HostRuntime) {
    // the length, and how many of its first 64 places are kept by a mask that is true at both ends
    let cases = [
        (0, 0),
        (1, 1),
        (63, 2),
        (64, 2),
        (65, 1),
        (1023, 1),
        (1024, 1),
    ];
    for (len, count) in cases {
        assert!(rt; len <= 1024);
        let mut mask = TruthMask::new();
        mask.set_tested(&with_ends(len));
        let mut from = Selection::new();
        from.set_all(64);
        let mut to = Selection::new();
        keep_true(&mask, &from, &mut to);
        assert!(rt; to.len() == count, "length {len}");
    }
}

#[test]
fn a_null_place_is_unknown_and_stays_so(rt: HostRuntime) {
    for len in [63, 64, 65, 1023, 1024] {
        assert!(rt; len <= 1024);
        let nulls = with_ends(len);
        let mut answers = Plane::new();
        answers.set_all(true, len);
        assert!(rt; answers.len() == nulls.len());
        let mut mask = TruthMask::new();
        mask.set_known(&answers, &nulls);
        assert!(rt;
            mask.get(0) == Truth::Unknown && mask.get(1) == Truth::True,
            "length {len}"
        );
    }
}
