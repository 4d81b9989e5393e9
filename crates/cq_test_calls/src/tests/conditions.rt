//! LIKE by its characters, and a sum whose size is larger than its result. The truths of conditions are scripts of cq_test_transcript.
ghost use Rattle.std.specs.Prelude.{[], IfOk};
ghost use Rattle.cq_model.specs.Exact.{IsExactAt};

use cq_model::{Expr, ExprTree};
use cq_model_eval::{compare, eval_row, like};
use cq_values::{Comparison, Lent, Truth, Value};
use std::alloc::{AllocError, Global};
use std::test::Fail;

/// A pattern, a text, and whether it fits.
const TEXTS: &[(&str, &str, bool)] = &[
    ("", "", true),
    ("", "a", false),
    ("%", "", true),
    ("%", "abc", true),
    ("%%", "", true),
    ("_", "", false),
    ("_", "a", true),
    ("_", "é", true),
    ("__", "é", false),
    ("日_", "日本", true),
    ("_", "日本", false),
    ("%本", "日本", true),
    ("%é%", "caféteria", true),
    ("%_", "", false),
    ("%_", "ü", true),
    ("a%", "a", true),
    ("a%", "ba", false),
    ("A%", "abc", false),
    ("a_c", "abc", true),
    ("a_c", "ac", false),
    ("%aab", "aaab", true),
    ("%bc%bc", "abc", false),
    ("%bc%bc", "abcbc", true),
    ("a%b%c", "a-b-b-c", true),
    ("a%b%c", "a-b-c-", false),
];

#[test]
fn a_pattern_fits_by_characters(rt: HostRuntime) {
    for (pattern, text, fits) in TEXTS {
        assert!(rt; like(pattern, text) == *fits, "'{text}' LIKE '{pattern}'");
    }
}

/// 2^126 and its opposite.
fn half_and_half(alloc: Global) -> Result<Expr, AllocError>
    ensures { IfOk result (λ e. IsExactAt e []) }
{
    let half: i128 = 1 << 126;
    let first = Box::new(alloc, ExprTree::Literal(Value::Number(half)))?;
    let rest = vec![in alloc; ExprTree::Literal(Value::Number(-half))]?;
    Ok(Expr::new(ExprTree::Sum(first, rest)))
}

#[test]
fn a_sum_is_asked_for_by_its_exact_result(rt: HostRuntime) -> Result<(), Fail> {
    let sum = half_and_half(rt.alloc())?;
    let found = compare(Comparison::Equal, &eval_row(&sum, &[]), &Lent::Number(0));
    assert!(rt; found == Truth::True);
    Ok(())
}
