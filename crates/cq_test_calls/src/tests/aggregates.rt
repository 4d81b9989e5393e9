//! COUNT(DISTINCT x) as it is read, and what it gives in a query of groups.
use cq_binder_expressions::{Scope, ScopeColumn, typing_of};
use cq_binder_rules::{Fault, Kind, Typing};
use cq_sql::{SqlFault, expression_of};
use cq_sql_language::{AggregateFunction, ExprNode, SqlExpr};
use cq_sql_tokens::tokens;
use cq_values::{ColumnDef, Text, Ty};
use std::alloc::Global;
use std::test::Fail;

/// The function of the aggregate that the text is, if it is one.
fn function_of(alloc: Global, text: &str) -> Result<Option<AggregateFunction>, Fail> {
    let tokens = tokens(alloc, text)?;
    Ok(match expression_of(alloc, tokens.as_slice())? {
        ExprNode::Aggregate(function, _) => Some(function),
        _ => None,
    })
}

/// An aggregate, and its function.
const FUNCTIONS: &[(&str, AggregateFunction)] = &[
    ("COUNT(a)", AggregateFunction::Count),
    ("COUNT(DISTINCT a)", AggregateFunction::CountDistinct),
    ("count ( distinct a + 1 )", AggregateFunction::CountDistinct),
    ("COUNT(DISTINCT (a))", AggregateFunction::CountDistinct),
    ("COUNT(DISTINCT 'x')", AggregateFunction::CountDistinct),
    ("SUM(a)", AggregateFunction::Sum),
];

#[test]
fn distinct_stands_behind_count(rt: HostRuntime) -> Result<(), Fail> {
    for (text, function) in FUNCTIONS {
        assert!(rt; function_of(rt.alloc(), text)? == Some(*function), "{text}");
    }
    Ok(())
}

fn is_syntax_fault(alloc: Global, text: &str) -> Result<bool, Fail> {
    let tokens = tokens(alloc, text)?;
    Ok(matches!(
        expression_of(alloc, tokens.as_slice()),
        Err(SqlFault::Syntax)
    ))
}

const NO_EXPRESSIONS: &[&str] = &[
    "SUM(DISTINCT a)",
    "MIN(DISTINCT a)",
    "MAX(DISTINCT a)",
    "COUNT(DISTINCT *)",
    "COUNT(DISTINCT)",
    "COUNT(DISTINCT DISTINCT a)",
    "COUNT(DISTINCT a = 1)",
    "COUNT(a DISTINCT)",
    "COUNT DISTINCT (a)",
    "DISTINCT a",
    "(DISTINCT a)",
];

#[test]
fn distinct_stands_nowhere_else(rt: HostRuntime) -> Result<(), Fail> {
    for text in NO_EXPRESSIONS {
        assert!(rt; is_syntax_fault(rt.alloc(), text)?, "{text}");
    }
    Ok(())
}

/// What an item gives, in one group of all rows of a table with a text a.
fn item_typing(alloc: Global, text: &str) -> Result<Result<Typing, Fault>, Fail> {
    let tokens = tokens(alloc, text)?;
    let item = SqlExpr::new(expression_of(alloc, tokens.as_slice())?);
    let column = ColumnDef {
        name: Text::new(alloc, "a")?,
        ty: Ty::Text,
        not_null: false,
    };
    let columns = [ScopeColumn::new("t", &column, 1 << 63)];
    Ok(typing_of(&Scope::of_groups(&columns, &[]), &item))
}

/// A count, which is at most 2^120.
const A_COUNT: Result<Typing, Fault> = Ok(Typing {
    kind: Kind::Value(Ty::Integer),
    size: 1 << 120,
});

/// An item, and what it gives or the fault that it has.
const ITEMS: &[(&str, Result<Typing, Fault>)] = &[
    ("COUNT(DISTINCT a)", A_COUNT),
    ("COUNT(DISTINCT 1 + 1)", A_COUNT),
    ("COUNT(DISTINCT DATE '2024-02-29')", A_COUNT),
    ("COUNT(DISTINCT NULL)", A_COUNT),
    ("COUNT(DISTINCT a) * 128", Err(Fault::TooWide)),
    ("COUNT(DISTINCT a + 1)", Err(Fault::TypeMismatch)),
    ("COUNT(DISTINCT b)", Err(Fault::UnknownColumn)),
    ("COUNT(DISTINCT COUNT(a))", Err(Fault::AggregateMisplaced)),
    (
        "COUNT(DISTINCT COUNT(DISTINCT a))",
        Err(Fault::AggregateMisplaced),
    ),
];

#[test]
fn different_values_of_any_type_are_counted(rt: HostRuntime) -> Result<(), Fail> {
    for (text, typing) in ITEMS {
        assert!(rt; item_typing(rt.alloc(), text)? == *typing, "{text}");
    }
    Ok(())
}
