//! Exact totals that leave 128 bits, and come back.
use cq_values::Total;

/// 2^120, which is as often as a row of a query can be there.
const MOST: i128 = 1_329_227_995_784_915_872_903_807_060_280_344_576;

#[test]
fn a_total_that_left_128_bits_comes_back_exactly(rt: HostRuntime) {
    let mut total = Total::new();
    total.add_times(i128::MAX, MOST);
    assert_eq!(rt; total.to_i128(), None);
    total.add_times(i128::MAX, -MOST);
    total.add(5);
    assert_eq!(rt; total.to_i128(), Some(5));
}

#[test]
fn a_total_ends_at_both_ends_of_128_bits(rt: HostRuntime) {
    let mut total = Total::new();
    total.add(i128::MAX);
    assert_eq!(rt; total.to_i128(), Some(i128::MAX));
    total.add(1);
    assert_eq!(rt; total.to_i128(), None);
    total.add_times(i128::MIN, 2);
    assert_eq!(rt; total.to_i128(), Some(i128::MIN));
    total.add(-1);
    assert_eq!(rt; total.to_i128(), None);
}
