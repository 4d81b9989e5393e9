//! Sums at the lengths where words of flags begin and end, with NULLs at both ends.
use super::columns::counted;
use cq_prims_arithmetic::sum_into;
use cq_values::Total;
use cq_vectors::Vector;
use cq_vectors_masks::Selection;
use std::test::Fail;

/// The sum of all numbers.
fn total_of(numbers: &Vector<'_>) -> Option<i128> {
    let mut places = Selection::new();
    places.set_all(numbers.len());
    let mut total = Total::new();
    sum_into(numbers, &places, &mut total);
    total.to_i128()
}

/// A base, whether numbers rise from it, their count and their sum: in 64 bits, and in 128 bits of either sign.
const TOTALS: &[(i64, bool, usize, i128)] = &[
    (0, true, 0, 0),
    (0, true, 1, 0),
    (0, true, 63, 1891),
    (0, true, 64, 1953),
    (0, true, 65, 2016),
    (0, true, 1023, 521731),
    (0, true, 1024, 522753),
    (i64::MAX, true, 0, 0),
    (i64::MAX, true, 1, 0),
    (i64::MAX, true, 63, 562625694248141326118),
    (i64::MAX, true, 64, 571849066284996101987),
    (i64::MAX, true, 65, 581072438321850877857),
    (i64::MAX, true, 1023, 9417062849628726620678),
    (i64::MAX, true, 1024, 9426286221665581397507),
    (i64::MIN, false, 0, 0),
    (i64::MIN, false, 1, 0),
    (i64::MIN, false, 63, -562625694248141326179),
    (i64::MIN, false, 64, -571849066284996102049),
    (i64::MIN, false, 65, -581072438321850877920),
    (i64::MIN, false, 1023, -9417062849628726621699),
    (i64::MIN, false, 1024, -9426286221665581398529),
];

#[test]
fn a_total_is_exact_at_each_length(rt: HostRuntime) -> Result<(), Fail> {
    for (base, is_up, len, sum) in TOTALS {
        let rows = counted(rt.alloc(), *base, *is_up, *len)?;
        assert!(rt; rows.len() <= 1024);
        let numbers = Vector::gather(rt.alloc(), rows.as_slice(), 0)?;
        assert_eq!(rt; total_of(&numbers), Some(*sum), "{len} numbers from {base}");
    }
    Ok(())
}
