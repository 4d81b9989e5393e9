//! Comparisons of vectors in each pair of forms, and where they are NULL, at the lengths where words of flags end.
ghost use Rattle.std.specs.Prelude.{IfOk, length, ◌<◌, ◌≡◌, ◌≤◌};

use super::columns::row_within;
use cq_prims::{compare, is_null};
use cq_values::{Comparison, Day, Lent, Row, Text, Truth, Value};
use cq_vectors::{Form, Vector};
use cq_vectors_masks::TruthMask;
use std::alloc::{AllocError, Global};
use std::process::Abort;
use std::test::Fail;

/// One of three values of a kind, in their order.
fn value_of(alloc: Global, kind: char, rank: usize) -> Result<Value, AllocError> {
    match kind {
        'n' => Ok(Value::Number(rank as i128)),
        'w' => Ok(Value::Number((1 << 70) + rank as i128)),
        'd' => Ok(match Day::new((rank % 3) as i32) {
            Some(day) => Value::Day(day),
            None => Value::Null,
        }),
        _ => Ok(Value::Text(Text::new(alloc, text_of(rank))?)),
    }
}

fn text_of(rank: usize) -> &'static str {
    match rank {
        0 => "a",
        1 => "ab",
        _ => "b",
    }
}

/// A column of values whose ranks go round, with NULL in the first place and in the last.
pub(crate) fn ranked(
    alloc: Global,
    kind: char,
    len: usize,
    shift: usize,
) -> Result<Vec<Row>, AllocError> {
    let mut rows = Vec::new(alloc);
    for place in 0..len {
        let value = value_of(alloc, kind, (place % 3 + shift % 3) % 3)?;
        rows.push(row_within(alloc, place, len, value)?)?;
    }
    Ok(rows)
}

/// The truth at a place as a letter, u where nothing is known.
fn letter_at(truths: &TruthMask, place: usize) -> char {
    if place >= 1024 {
        return '-';
    }
    match truths.get(place) {
        Truth::True => 't',
        Truth::False => 'f',
        Truth::Unknown => 'u',
    }
}

/// Asks that the truths from a place on are these letters.
pub(crate) fn check_letters(rt: &impl Abort, truths: &TruthMask, first: usize, letters: &str) {
    let mut place = first;
    for letter in letters.chars() {
        assert_eq!(rt; letter_at(truths, place), letter, "at {place}");
        place = place.saturating_add(1);
    }
}

/// Whether one column is less than another at a place, as a letter. Columns of unlike lengths are not compared.
fn less_in(a: &Vector<'_>, b: &Vector<'_>, place: usize) -> char {
    if a.len() != b.len() {
        return '-';
    }
    let mut to = TruthMask::new();
    compare(Comparison::Less, a, b, &mut to);
    letter_at(&to, place)
}

/// The same of the columns of rows.
fn less_at(alloc: Global, a: &[Row], b: &[Row], place: usize) -> Result<char, AllocError>
    requires a { length a.now ≤ 1024 }
    requires b { length b.now ≤ 1024 }
{
    let a = Vector::gather(alloc, a, 0)?;
    match Vector::gather(alloc, b, 0) {
        Ok(b) => {
            let letter = less_in(&a, &b, place);
            drop(b);
            drop(a);
            Ok(letter)
        }
        Err(fault) => {
            drop(a);
            Err(fault)
        }
    }
}

/// Asks whether a column of one kind is less at a place than one of another kind, whose ranks are shifted.
fn check_less(
    rt: &impl Abort,
    alloc: Global,
    (left, right, shift): (char, char, usize),
    (len, place, letter): (usize, usize, char),
) -> Result<(), Fail> {
    let a = ranked(alloc, left, len, 0)?;
    match ranked(alloc, right, len, shift) {
        Ok(b) => {
            assert!(rt; a.len() <= 1024 && b.len() <= 1024);
            let found = less_at(alloc, &a, &b, place);
            drop(b);
            drop(a);
            assert_eq!(rt; found?, letter, "{left} and {right} at {place} of {len}");
            Ok(())
        }
        Err(fault) => {
            drop(a);
            Err(Fail::from(fault))
        }
    }
}

/// Lengths and places: the left rank at a place is the place modulo 3, the right one is the next.
const ENDS: &[(usize, usize, char)] = &[
    (1, 0, 'u'),
    (63, 61, 't'),
    (64, 62, 'f'),
    (65, 63, 't'),
    (65, 64, 'u'),
    (1023, 1021, 't'),
    (1024, 1022, 'f'),
    (1024, 1023, 'u'),
];

#[test]
fn each_form_is_compared_to_its_end(rt: HostRuntime) -> Result<(), Fail> {
    for kind in "nwdt".chars() {
        for end in ENDS {
            check_less(&rt, rt.alloc(), (kind, kind, 1), *end)?;
        }
    }
    Ok(())
}

/// Kinds of columns, and whether a value of the left one is less.
const KINDS: &[(char, char, char)] = &[
    ('n', 'w', 't'),
    ('w', 'n', 'f'),
    ('n', 'd', 't'),
    ('d', 't', 't'),
    ('t', 'n', 'f'),
];

#[test]
fn values_of_two_forms_are_compared_by_their_order(rt: HostRuntime) -> Result<(), Fail> {
    for (left, right, letter) in KINDS {
        for (place, letter) in [(0, 'u'), (1, *letter), (63, *letter), (64, 'u')] {
            check_less(&rt, rt.alloc(), (*left, *right, 0), (65, place, letter))?;
        }
    }
    Ok(())
}

#[test]
fn no_places_have_no_truths(rt: HostRuntime) -> Result<(), Fail> {
    let a = Vector::gather(rt.alloc(), &[], 0)?;
    let mut to = TruthMask::new();
    compare(Comparison::NotEqual, &a, &a, &mut to);
    assert_eq!(rt; to.len(), 0);
    is_null(&a, &mut to);
    drop(a);
    assert_eq!(rt; to.len(), 0);
    Ok(())
}

/// A comparison, and how 1, 2 and 0 compare with 1, and 1 with them.
const WITH_ONE: &[(&str, &str, &str)] = &[
    ("=", "tff", "tff"),
    ("<>", "ftt", "ftt"),
    ("<", "fft", "ftf"),
    ("<=", "tft", "ttf"),
    (">", "ftf", "fft"),
    (">=", "ttf", "tft"),
];

fn comparison_of(sign: &str) -> Comparison {
    match sign {
        "=" => Comparison::Equal,
        "<>" => Comparison::NotEqual,
        "<" => Comparison::Less,
        "<=" => Comparison::LessOrEqual,
        ">" => Comparison::Greater,
        _ => Comparison::GreaterOrEqual,
    }
}

/// Lengths, and the last places from which 1, 2 and 0 stand, before NULL in the last place of all.
const ROUNDS: &[(usize, usize)] = &[
    (5, 1),
    (63, 58),
    (64, 58),
    (65, 61),
    (1023, 1018),
    (1024, 1018),
];

/// Asks how the column of the numbers 1, 2 and 0 behind NULL compares with 1, on its right and on its left.
fn check_with_one(rt: &impl Abort, a: &Vector<'_>, round: usize) {
    let one = Vector::new(Form::Constant(Lent::Number(1), a.len()));
    assert!(rt; a.len() == one.len());
    for (sign, right, left) in WITH_ONE {
        let mut to = TruthMask::new();
        compare(comparison_of(sign), a, &one, &mut to);
        check_letters(rt, &to, 1, right);
        check_letters(rt, &to, round, right);
        compare(comparison_of(sign), &one, a, &mut to);
        check_letters(rt, &to, 1, left);
        check_letters(rt, &to, round, left);
        check_letters(rt, &to, 0, "u");
        check_letters(rt, &to, a.len().saturating_sub(1), "u");
    }
    drop(one);
}

#[test]
fn each_comparison_with_a_constant_has_its_truths(rt: HostRuntime) -> Result<(), Fail> {
    for (len, round) in ROUNDS {
        let rows = ranked(rt.alloc(), 'n', *len, 0)?;
        assert!(rt; rows.len() <= 1024);
        let a = Vector::gather(rt.alloc(), rows.as_slice(), 0)?;
        check_with_one(&rt, &a, *round);
        drop(a);
    }
    Ok(())
}

/// Lengths, and whether the first three places are NULL and the last three.
const NULLS: &[(usize, &str, &str)] = &[
    (0, "", ""),
    (1, "t", "t"),
    (63, "tff", "fft"),
    (64, "tff", "fft"),
    (65, "tff", "fft"),
    (1023, "tff", "fft"),
    (1024, "tff", "fft"),
];

/// Asks where a column of a kind is NULL.
fn check_nulls(
    rt: &impl Abort,
    alloc: Global,
    kind: char,
    (len, first, last): (usize, &str, &str),
) -> Result<(), Fail> {
    let rows = ranked(alloc, kind, len, 0)?;
    assert!(rt; rows.len() <= 1024);
    let a = Vector::gather(alloc, rows.as_slice(), 0)?;
    let mut to = TruthMask::new();
    is_null(&a, &mut to);
    drop(a);
    assert_eq!(rt; to.len(), len);
    check_letters(rt, &to, 0, first);
    check_letters(rt, &to, len.saturating_sub(3), last);
    Ok(())
}

#[test]
fn is_null_is_known_in_each_place(rt: HostRuntime) -> Result<(), Fail> {
    for kind in "nwdt".chars() {
        for case in NULLS {
            check_nulls(&rt, rt.alloc(), kind, *case)?;
        }
    }
    Ok(())
}
