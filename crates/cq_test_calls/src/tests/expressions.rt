//! Expressions as they are read, and lists of tokens that are none.
use cq_sql::expression_of;
use cq_sql_tokens::tokens;
use std::alloc::Global;
use std::test::Fail;

/// Whether the text is an expression.
fn is_expression(alloc: Global, text: &str) -> Result<bool, Fail> {
    let tokens = tokens(alloc, text)?;
    Ok(expression_of(alloc, tokens.as_slice()).is_ok())
}

/// A text, and whether it is an expression.
const TEXTS: &[(&str, bool)] = &[
    (
        "a + 1 * 2 = 3 AND NOT b NOT IN (1, NULL) OR t.c IS NOT NULL",
        true,
    ),
    ("a BETWEEN - 1 AND 2 AND b LIKE '%'", true),
    (
        "EXTRACT(YEAR FROM d) < 2024 OR (d = DATE '2024-02-29')",
        true,
    ),
    ("((a))", true),
    ("a = b = c", false),
    ("NOT NOT a", false),
    ("- - 1", false),
    ("a NOT b", false),
    ("a IN ()", false),
    ("(a", false),
    ("", false),
];

#[test]
fn a_list_of_tokens_is_an_expression_or_none(rt: HostRuntime) -> Result<(), Fail> {
    for (text, is_one) in TEXTS {
        assert!(rt; is_expression(rt.alloc(), text)? == *is_one, "{text}");
    }
    Ok(())
}
