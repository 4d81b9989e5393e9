//! From numbers to words.
ghost use Rattle.std.specs.List.{All};
ghost use Rattle.std.specs.Prelude.{OnErr, OnOk, [], length, vec_capacity, vec_len, ℕ, ◌+◌, ◌*◌, ◌/◌, ◌<◌, ◌^◌, ◌≡◌, ◌≤◌};
ghost use Rattle.cq_bits.specs.Packed.{AreRead, IsPacked, IsWidthOf};

use std::alloc::AllocError;

/// Writes the words that hold the values, in place of those that stand in `to`: 1, 2 and 3 at width 2 are the word 57.
///
/// An error comes where there is no memory for the words, and then `to` is as before.
pub fn pack(values: &[u64], width: u32, to: &mut Vec<u64>) -> Result<(), AllocError>
    requires narrow { width ≤ 64 }
    requires fit { All (λ value. value < 2 ^ width) values.now }
    ensures ok { OnOk result (IsPacked width values.now to.new.items) }
    ensures read_back { OnOk result (AreRead width to.new.items values.now) }
    ensures err { OnErr result (to.new.items ≡ to.old.items) }
{
    to.reserve(words_for(width, values.len()))?;
    to.clear();
    push_packed(values, width, to);
    Ok(())
}

/// How many words hold so many values.
pub fn words_for(width: u32, len: usize) -> usize
    requires { width ≤ 64 }
    ensures { result ≡ (width * len + 63) / 64 }
{
    let width = width as usize;
    len / 64 * width + (len % 64 * width + 63) / 64
}

fn push_packed(values: &[u64], width: u32, to: &mut Vec<u64>)
    requires narrow { width ≤ 64 }
    requires fit { All (λ value. value < 2 ^ width) values.now }
    requires empty { to.old.items ≡ [] }
    requires room { (width * length values.now + 63) / 64 ≤ vec_capacity to.old }
    ensures { IsPacked width values.now to.new.items }
{
    let mut held: u128 = 0;
    let mut bits = 0;
    for value in values {
        held |= u128::from(*value) << bits;
        bits += width;
        if bits >= 64 {
            to.push_reserved((held & u128::from(u64::MAX)) as u64);
            held >>= 64;
            bits -= 64;
        }
    }
    if bits > 0 {
        to.push_reserved(held as u64);
    }
}

/// How many bits the widest of some numbers takes.
pub(crate) fn width_of(numbers: &[u64]) -> u32
    ensures narrow { result ≤ 64 }
    ensures is { IsWidthOf result numbers.now }
{
    let mut bits = 0;
    for number in numbers {
        bits |= *number;
    }
    64 - bits.leading_zeros()
}
