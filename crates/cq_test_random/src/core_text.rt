//! What a query asks for, written as a text.
//!
//! Two queries ask for the same, but for DISTINCT, ORDER BY and LIMIT, where their texts are one. A word stands behind what
//! it is said of, and columns stand by their places. So a chain is written as its parts grouped to the left are.
use cq_model::{Aggregate, Cond, CondTree, ExprTree, Query, Shape};
use std::alloc::{AllocError, Global};

/// The sources of a query, its ON, WHERE, GROUP BY, HAVING and items. No view has a HAVING.
pub(crate) fn core_text(alloc: Global, query: &Query) -> Result<String, AllocError> {
    let mut out = String::new(alloc);
    write!(out, "{:?} ", query.first)?;
    for join in query.joins.as_slice() {
        write!(out, "{join:?} ")?;
    }
    write_filter(&mut out, &query.filter, "where ")?;
    write_shape(&mut out, &query.shape)?;
    for item in query.items.as_slice() {
        write_of(&mut out, item.tree(), "item ")?;
    }
    Ok(out)
}

fn write_filter(out: &mut String, filter: &Option<Cond>, word: &str) -> Result<(), AllocError> {
    match filter {
        Some(cond) => write_cond_of(out, cond.tree(), word),
        None => Ok(()),
    }
}

fn write_shape(out: &mut String, shape: &Shape) -> Result<(), AllocError> {
    match shape {
        Shape::Plain => out.push_str("rows "),
        Shape::Grouped {
            keys,
            aggregates,
            having,
        } => {
            write!(out, "by {keys:?} ")?;
            for aggregate in aggregates.as_slice() {
                write_aggregate(out, aggregate)?;
            }
            write_filter(out, having, "having ")
        }
    }
}

fn write_aggregate(out: &mut String, aggregate: &Aggregate) -> Result<(), AllocError> {
    match aggregate {
        Aggregate::CountAll => out.push_str("all "),
        Aggregate::Count(expr) => write_of(out, expr.tree(), "count "),
        Aggregate::CountDistinct(expr) => write_of(out, expr.tree(), "distinct "),
        Aggregate::Sum(expr) => write_of(out, expr.tree(), "sum "),
        Aggregate::Min(expr) => write_of(out, expr.tree(), "min "),
        Aggregate::Max(expr) => write_of(out, expr.tree(), "max "),
    }
}

#[cycle(conditions)]
fn write_cond(out: &mut String, tree: &CondTree) -> Result<(), AllocError> {
    match tree {
        CondTree::Compare(comparison, a, b) => {
            write_expr(out, a)?;
            write_expr(out, b)?;
            write!(out, "{comparison:?} ")
        }
        CondTree::IsNull(expr) => write_of(out, expr, "null "),
        CondTree::Between(expr, least, greatest) => {
            write_expr(out, expr)?;
            write_expr(out, least)?;
            write_of(out, greatest, "between ")
        }
        CondTree::In(expr, choices) => {
            write_expr(out, expr)?;
            write_each(out, choices, "choice ")?;
            out.push_str("in ")
        }
        CondTree::Like(expr, pattern) => {
            write_expr(out, expr)?;
            write!(out, "{pattern:?} ")
        }
        CondTree::Not(part) => write_cond_of(out, part, "not "),
        CondTree::And(first, rest) => {
            write_cond(out, first)?;
            write_each_cond(out, rest, "and ")
        }
        CondTree::Or(first, rest) => {
            write_cond(out, first)?;
            write_each_cond(out, rest, "or ")
        }
    }
}

/// A condition, and the word of what it is part of.
#[cycle(conditions)]
fn write_cond_of(out: &mut String, tree: &CondTree, word: &str) -> Result<(), AllocError> {
    write_cond(out, tree)?;
    out.push_str(word)
}

#[cycle(conditions)]
fn write_each_cond(out: &mut String, trees: &[CondTree], word: &str) -> Result<(), AllocError> {
    for tree in trees {
        write_cond_of(out, tree, word)?;
    }
    Ok(())
}

#[cycle(expressions)]
fn write_expr(out: &mut String, tree: &ExprTree) -> Result<(), AllocError> {
    match tree {
        ExprTree::Column(place) => write!(out, "{place} "),
        ExprTree::Literal(value) => write!(out, "{value:?} "),
        ExprTree::Negate(part) => write_of(out, part, "negated "),
        ExprTree::Extract(day_part, part) => {
            write_expr(out, part)?;
            write!(out, "{day_part:?} ")
        }
        ExprTree::Sum(first, rest) => {
            write_expr(out, first)?;
            write_each(out, rest, "+ ")
        }
        ExprTree::Product(first, rest) => {
            write_expr(out, first)?;
            write_each(out, rest, "* ")
        }
    }
}

/// An expression, and the word of what it is part of.
#[cycle(expressions)]
fn write_of(out: &mut String, tree: &ExprTree, word: &str) -> Result<(), AllocError> {
    write_expr(out, tree)?;
    out.push_str(word)
}

#[cycle(expressions)]
fn write_each(out: &mut String, trees: &[ExprTree], word: &str) -> Result<(), AllocError> {
    for tree in trees {
        write_of(out, tree, word)?;
    }
    Ok(())
}
