//! Truths of entries, in the places that name them.
ghost use Rattle.std.specs.Bool.{OnTrue};
ghost use Rattle.std.specs.List.{All};
ghost use Rattle.std.specs.Prelude.{length, ◌<◌, ◌≤◌};

use super::kernels::check_letters;
use cq_prims::dict_mask;
use cq_values::Truth;
use cq_vectors_masks::TruthMask;
use std::process::Abort;

fn are_known(count: usize, numbers: &[u64]) -> bool
    ensures { OnTrue result (All (λ n. n < count) numbers.now) }
{
    for number in numbers {
        if count as u64 <= *number {
            return false;
        }
    }
    true
}

/// Asks which letters the truths of Unknown, True and False have from a place on, where the numbers name them.
fn check_named(rt: &impl Abort, numbers: &[u64], first: usize, letters: &str) {
    let entries = [Truth::Unknown, Truth::True, Truth::False];
    assert!(rt; are_known(entries.len(), numbers) && numbers.len() <= 1024);
    let mut to = TruthMask::new();
    dict_mask(&entries, numbers, &mut to);
    assert_eq!(rt; to.len(), numbers.len());
    check_letters(rt, &to, first, letters);
}

#[test]
fn a_place_has_the_truth_of_the_entry_that_it_names(rt: HostRuntime) {
    check_named(&rt, &[2, 1, 0, 1], 0, "ftut");
    check_named(&rt, &[1; 65], 62, "tttu");
    check_named(&rt, &[], 0, "u");
}
