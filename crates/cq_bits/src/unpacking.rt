//! From words to numbers.
ghost use Rattle.std.specs.Prelude.{length, ◌+◌, ◌*◌, ◌/◌, ◌%◌, ◌<◌, ◌^◌, ◌≡◌, ◌≤◌};
ghost use Rattle.cq_bits.specs.Packed.{number_of, value_at, values_from};

/// Reads as many values as `to` has places, from the place `start` on. Takes no memory.
pub fn unpack_into(words: &[u64], width: u32, start: usize, to: &mut [u64])
    requires narrow { width ≤ 64 }
    requires there { width * (start + length to.old) ≤ 64 * length words.now }
    ensures { to.new ≡ values_from width words.now start (length to.old) }
{
    match width {
        0 => to.fill(0),
        8 => unpack_by::<8>(words, 8, start, to),
        16 => unpack_by::<4>(words, 16, start, to),
        32 => unpack_by::<2>(words, 32, start, to),
        64 => to.copy_from_slice(&words[start..start + to.len()]),
        1..=4 => unpack_by::<16>(words, width as usize, start, to),
        5..=8 => unpack_by::<8>(words, width as usize, start, to),
        9..=16 => unpack_by::<4>(words, width as usize, start, to),
        17..=32 => unpack_by::<2>(words, width as usize, start, to),
        _ => unpack_by::<1>(words, width as usize, start, to),
    }
}

/// The one value at a place.
pub fn unpack_at(words: &[u64], width: u32, place: usize) -> u64
    requires narrow { width ≤ 64 }
    requires there { width * (place + 1) ≤ 64 * length words.now }
    ensures { result ≡ value_at width words.now place }
{
    if width == 0 {
        return 0;
    }
    let width = width as usize;
    let (word, shift) = seek(width, place);
    window(words, word, shift) & (u64::MAX >> (64 - width))
}

/// The word and the bit in it where a value begins.
fn seek(width: usize, place: usize) -> (usize, usize)
    requires { width ≤ 64 }
    ensures place { 64 * result.0 + result.1 ≡ width * place }
    ensures within { result.1 < 64 }
{
    let bits = place % 64 * width;
    (place / 64 * width + bits / 64, bits % 64)
}

/// The 64 bits from a bit of a word on.
#[inline(always)]
fn window(words: &[u64], word: usize, shift: usize) -> u64
    requires there { word < length words.now }
    requires within { shift < 64 }
    ensures { result ≡ number_of 64 words.now / 2 ^ (64 * word + shift) % 2 ^ 64 }
{
    let high = if word + 1 < words.len() {
        words[word + 1]
    } else {
        0
    };
    let both = u128::from(high) << 64 | u128::from(words[word]);
    (both >> shift & u128::from(u64::MAX)) as u64
}

/// The values from a place on, `PER` of them from each window of 64 bits. A literal width makes the loop fast.
#[inline(always)]
fn unpack_by<const PER: usize>(words: &[u64], width: usize, start: usize, to: &mut [u64])
    requires some { 0 < width }
    requires each { 0 < PER }
    requires narrow { width * PER ≤ 64 }
    requires there { width * (start + length to.old) ≤ 64 * length words.now }
    ensures { to.new ≡ values_from width words.now start (length to.old) }
{
    let mask = u64::MAX >> (64 - width);
    let (mut word, mut shift) = seek(width, start);
    let windows = to.len() / PER;
    for k in 0..windows {
        let bits = window(words, word, shift);
        for j in 0..PER {
            to[PER * k + j] = bits >> (width * j) & mask;
        }
        shift += width * PER;
        word += shift / 64;
        shift %= 64;
    }
    for i in PER * windows..to.len() {
        to[i] = window(words, word, shift) & mask;
        shift += width;
        word += shift / 64;
        shift %= 64;
    }
}
