use crate::{Bits, pack, unpack_at, unpack_into, words_for};
use std::alloc::{AllocError, Global};
use std::test::Fail;

/// So many numbers, which fit any width from 3 on.
fn small_numbers(alloc: Global, len: u32) -> Result<Vec<u64>, AllocError> {
    let mut numbers = Vec::new(alloc);
    for i in 0..len {
        numbers.push(u64::from(i % 7 + i % 2))?;
    }
    Ok(numbers)
}

/// Whether the numbers are read back, one by one and all at once.
fn is_read_back(alloc: Global, len: u32) -> Result<bool, AllocError> {
    let numbers = small_numbers(alloc, len)?;
    let bits = Bits::of(alloc, &numbers)?;
    let mut all = small_numbers(alloc, len)?;
    all.fill(99);
    if all.len() != bits.len() {
        return Ok(false);
    }
    bits.read(0, &mut all);
    for i in 0..bits.len() {
        if i >= numbers.len() || i >= all.len() {
            return Ok(false);
        }
        if bits.at(i) != numbers[i] || all[i] != numbers[i] {
            return Ok(false);
        }
    }
    Ok(true)
}

#[test]
fn three_small_values_share_a_word(rt: HostRuntime) -> Result<(), Fail> {
    let mut words = Vec::new(rt.alloc());
    words.push(7)?;
    words.push(7)?;
    pack(&[1, 2, 3], 2, &mut words)?;
    assert_eq!(rt; words.as_slice(), [57].as_slice());
    let mut values = [0; 2];
    unpack_into(&words, 2, 1, &mut values);
    assert_eq!(rt; values, [2, 3]);
    assert_eq!(rt; unpack_at(&words, 2, 2), 3);
    Ok(())
}

#[test]
fn a_thousand_values_of_no_bits_take_no_word(rt: HostRuntime) -> Result<(), Fail> {
    let mut words = Vec::new(rt.alloc());
    pack(&[0; 1000], 0, &mut words)?;
    assert_eq!(rt; words.len(), 0);
    let mut values = [7; 3];
    unpack_into(&words, 0, 997, &mut values);
    assert_eq!(rt; values, [0, 0, 0]);
    Ok(())
}

#[test]
fn values_of_64_bits_are_the_words(rt: HostRuntime) -> Result<(), Fail> {
    let mut words = Vec::new(rt.alloc());
    pack(&[0, u64::MAX], 64, &mut words)?;
    assert_eq!(rt; words.as_slice(), [0, u64::MAX].as_slice());
    Ok(())
}

#[test]
fn a_value_lies_across_the_end_of_a_word(rt: HostRuntime) -> Result<(), Fail> {
    let mut words = Vec::new(rt.alloc());
    pack(&[1, 0x7_ffff_ffff, 0], 35, &mut words)?;
    assert_eq!(rt; words.as_slice(), [0xffff_fff8_0000_0001, 0x3f].as_slice());
    assert_eq!(rt; unpack_at(&words, 35, 1), 0x7_ffff_ffff);
    Ok(())
}

#[test]
fn numbers_are_read_back_at_the_ends_of_words_and_vectors(rt: HostRuntime) -> Result<(), Fail> {
    for len in [0, 1, 63, 64, 65, 1_023, 1_024] {
        assert!(rt; is_read_back(rt.alloc(), len)?, "{len} numbers");
    }
    Ok(())
}

#[test]
fn no_word_is_wasted(rt: HostRuntime) -> Result<(), Fail> {
    // width, values, words
    let cases = [
        (1, 64, 1),
        (1, 65, 2),
        (8, 1_024, 128),
        (63, 64, 63),
        (64, 3, 3),
    ];
    for (width, values, words) in cases {
        assert!(rt; width <= 64);
        assert_eq!(rt;
            words_for(width, values),
            words,
            "{values} values of {width} bits"
        );
    }
    Ok(())
}
