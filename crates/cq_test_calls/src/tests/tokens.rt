//! Texts and their tokens.
use cq_sql_language::Token;
use cq_sql_tokens::{TokenFault, is_past_limits, tokens};
use std::alloc::{AllocError, Global};
use std::process::Abort;
use std::test::Fail;

/// A token with a space behind it.
fn shown(alloc: Global, token: &Token) -> Result<String, AllocError> {
    match token {
        Token::Keyword(keyword) => format!(in alloc; "{keyword:?} "),
        Token::Name(name) => format!(in alloc; "{} ", name.as_str()),
        Token::Number(number) => format!(in alloc; "{number} "),
        Token::Text(content) => format!(in alloc; "'{}' ", content.as_str()),
        Token::Symbol(symbol) => format!(in alloc; "{symbol:?} "),
    }
}

/// Each token of a text.
fn written(alloc: Global, text: &str) -> Result<String, Fail> {
    let tokens = tokens(alloc, text)?;
    let mut line = String::new(alloc);
    for token in tokens.as_slice() {
        let one = shown(alloc, token)?;
        line.push_str(one.as_str())?;
    }
    Ok(line)
}

fn check(rt: &impl Abort, alloc: Global, text: &str, wanted: &str) -> Result<(), Fail> {
    assert_eq!(rt; written(alloc, text)?.as_str(), wanted, "in {text}");
    Ok(())
}

/// A keyword in both cases, and its tokens.
const KEYWORDS: &[(&str, &str)] = &[
    ("and AND", "And And "),
    ("as AS", "As As "),
    ("asc ASC", "Asc Asc "),
    ("between BETWEEN", "Between Between "),
    ("by BY", "By By "),
    ("copy COPY", "Copy Copy "),
    ("count COUNT", "Count Count "),
    ("create CREATE", "Create Create "),
    ("date DATE", "Date Date "),
    ("day DAY", "Day Day "),
    ("delete DELETE", "Delete Delete "),
    ("desc DESC", "Desc Desc "),
    ("distinct DISTINCT", "Distinct Distinct "),
    ("drop DROP", "Drop Drop "),
    ("extract EXTRACT", "Extract Extract "),
    ("from FROM", "From From "),
    ("group GROUP", "Group Group "),
    ("having HAVING", "Having Having "),
    ("in IN", "In In "),
    ("inner INNER", "Inner Inner "),
    ("insert INSERT", "Insert Insert "),
    ("integer INTEGER", "Integer Integer "),
    ("into INTO", "Into Into "),
    ("is IS", "Is Is "),
    ("join JOIN", "Join Join "),
    ("left LEFT", "Left Left "),
    ("like LIKE", "Like Like "),
    ("limit LIMIT", "Limit Limit "),
    ("max MAX", "Max Max "),
    ("merge MERGE", "Merge Merge "),
    ("min MIN", "Min Min "),
    ("month MONTH", "Month Month "),
    ("move MOVE", "Move Move "),
    ("not NOT", "Not Not "),
    ("null NULL", "Null Null "),
    ("on ON", "On On "),
    ("or OR", "Or Or "),
    ("order ORDER", "Order Order "),
    ("outer OUTER", "Outer Outer "),
    ("refresh REFRESH", "Refresh Refresh "),
    ("select SELECT", "Select Select "),
    ("set SET", "Set Set "),
    ("sort SORT", "Sort Sort "),
    ("sum SUM", "Sum Sum "),
    ("table TABLE", "Table Table "),
    ("text TEXT", "Text Text "),
    ("update UPDATE", "Update Update "),
    ("values VALUES", "Values Values "),
    ("view VIEW", "View View "),
    ("where WHERE", "Where Where "),
    ("year YEAR", "Year Year "),
];

#[test]
fn each_keyword_is_read_in_both_cases(rt: HostRuntime) -> Result<(), Fail> {
    for (text, tokens) in KEYWORDS {
        check(&rt, rt.alloc(), text, tokens)?;
    }
    Ok(())
}

/// A text and its tokens.
const TEXTS: &[(&str, &str)] = &[
    ("", ""),
    ("-- no token", ""),
    (
        "(),.=<><<=>>=+-*",
        "Open Close Comma Dot Equal NotEqual Less LessOrEqual Greater GreaterOrEqual Plus Minus Star ",
    ),
    (
        "a<>b<=c >= d",
        "a NotEqual b LessOrEqual c GreaterOrEqual d ",
    ),
    ("Tab.Id_2 - 1--2\n- 3", "tab Dot id_2 Minus 1 Minus 3 "),
    ("''", "'' "),
    ("'it''s ''Ω'''", "'it's 'Ω'' "),
    ("'a' 'B -- c'", "'a' 'B -- c' "),
    ("007", "7 "),
    (
        "340282366920938463463374607431768211455",
        "340282366920938463463374607431768211455 ",
    ),
    (
        "340282366920938463463374607431768211456",
        "340282366920938463463374607431768211455 ",
    ),
];

#[test]
fn a_text_is_cut_into_its_tokens(rt: HostRuntime) -> Result<(), Fail> {
    for (text, tokens) in TEXTS {
        check(&rt, rt.alloc(), text, tokens)?;
    }
    Ok(())
}

fn is_refused(alloc: Global, text: &str) -> bool {
    matches!(tokens(alloc, text), Err(TokenFault::Syntax))
}

const NO_TOKENS: &[&str] = &["1a", "1_", "'open", "'open''", "a ; b", "\"a\"", "!=", "é"];

#[test]
fn what_is_no_token_is_a_fault_of_syntax(rt: HostRuntime) {
    for text in NO_TOKENS {
        assert!(rt; is_refused(rt.alloc(), text), "in {text}");
    }
}

fn is_past(alloc: Global, text: &str) -> Result<bool, Fail> {
    let tokens = tokens(alloc, text)?;
    Ok(is_past_limits(tokens.as_slice()))
}

/// A text, and whether it is past the limits.
const LIMITS: &[(&str, bool)] = &[
    (
        "(((((((((((((((((((((((((((((((((((((((((((((((((((((((((((((((()(",
        false,
    ),
    (
        "(((((((((((((((((((((((((((((((((((((((((((((((((((((((((((((((((",
        true,
    ),
    (
        "a23456789b23456789c23456789d23456789e23456789f23456789g23456789",
        false,
    ),
    (
        "a23456789b23456789c23456789d23456789e23456789f23456789g234567890",
        true,
    ),
];

#[test]
fn limits_are_63_bytes_and_64_parentheses(rt: HostRuntime) -> Result<(), Fail> {
    for (text, past) in LIMITS {
        assert!(rt; is_past(rt.alloc(), text)? == *past, "in {text}");
    }
    Ok(())
}
