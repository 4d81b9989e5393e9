//! How far numbers are from zero.
ghost use Rattle.std.specs.Prelude.{◌≤◌};
ghost use Rattle.cq_vectors_stored.specs.Sizes.{AreUpTo};

/// The greatest distance from zero, by which a kernel is chosen.
pub fn largest_size(values: &[i64]) -> u64
    ensures { AreUpTo result values.now }
{
    let mut largest = 0;
    for i in 0..values.len() {
        largest = larger(largest, values[i].unsigned_abs());
    }
    largest
}

fn larger(a: u64, b: u64) -> u64
    ensures left { a ≤ result }
    ensures right { b ≤ result }
{
    if a < b { b } else { a }
}
