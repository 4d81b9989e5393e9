//! Patterns of LIKE, each by itself and over columns of the lengths where words of flags end, with NULLs at both ends.
use super::kernels::{check_letters, ranked};
use cq_prims::like;
use cq_prims_like::Pattern;
use cq_vectors::Vector;
use cq_vectors_masks::TruthMask;
use std::alloc::Global;
use std::process::Abort;
use std::test::Fail;

/// A pattern, a text, and whether it fits.
const FITS: &[(&str, &str, bool)] = &[
    ("abc", "abc", true),
    ("abc", "abcd", false),
    ("", "", true),
    ("ab%", "abc", true),
    ("ab%", "xab", false),
    ("%bc", "abc", true),
    ("%bc", "bcx", false),
    ("%b%", "abc", true),
    ("%é%", "crémant", true),
    ("%b%", "acd", false),
    ("%%", "", true),
    ("a_c", "aéc", true),
    ("a_c", "ac", false),
    ("%a_c", "xxabc", true),
];

#[test]
fn patterns_of_each_form_fit_what_they_stand_for(rt: HostRuntime) -> Result<(), Fail> {
    for (pattern, text, answer) in FITS {
        let fitting = Pattern::new(rt.alloc(), pattern)?;
        let fits = fitting.fits(text);
        drop(fitting);
        assert_eq!(rt; fits, *answer, "{pattern} and {text}");
    }
    Ok(())
}

/// Lengths, and whether the texts `a`, `ab` and `b`, which go round, are like `%a%` in the first three places and the last.
const LIKES: &[(usize, &str, &str)] = &[
    (0, "", ""),
    (1, "u", "u"),
    (63, "utf", "ttu"),
    (64, "utf", "tfu"),
    (65, "utf", "ftu"),
    (1023, "utf", "ttu"),
    (1024, "utf", "tfu"),
];

/// Asks whether a column of a kind is like the pattern.
fn check_likes(
    rt: &impl Abort,
    alloc: Global,
    pattern: &Pattern<'_>,
    kind: char,
    (len, first, last): (usize, &str, &str),
) -> Result<(), Fail> {
    let rows = ranked(alloc, kind, len, 0)?;
    assert!(rt; rows.len() <= 1024);
    let a = Vector::gather(alloc, rows.as_slice(), 0)?;
    let mut to = TruthMask::new();
    like(&a, pattern, &mut to);
    drop(a);
    assert_eq!(rt; to.len(), len);
    check_letters(rt, &to, 0, first);
    check_letters(rt, &to, len.saturating_sub(3), last);
    Ok(())
}

/// Texts of each length, and numbers, which are like no pattern and not unlike it either.
fn check_both(rt: &impl Abort, alloc: Global, pattern: &Pattern<'_>) -> Result<(), Fail> {
    for case in LIKES {
        check_likes(rt, alloc, pattern, 't', *case)?;
    }
    check_likes(rt, alloc, pattern, 'n', (65, "uuu", "uuu"))
}

#[test]
fn a_text_alone_is_like_a_pattern(rt: HostRuntime) -> Result<(), Fail> {
    let pattern = Pattern::new(rt.alloc(), "%a%")?;
    let checked = check_both(&rt, rt.alloc(), &pattern);
    drop(pattern);
    checked
}
