//! Which columns a tree reads, rising, each once. No answer depends on them: they say what is gathered at once.
use cq_model::{CondTree, ExprTree};
use std::alloc::{AllocError, Global};

/// The columns that the condition reads.
pub fn columns_of(alloc: Global, tree: &CondTree) -> Result<Vec<usize>, AllocError> {
    let mut columns = Vec::new(alloc);
    add_of_condition(tree, &mut columns)?;
    Ok(columns)
}

fn add_of_condition(tree: &CondTree, columns: &mut Vec<usize>) -> Result<(), AllocError> {
    match tree {
        CondTree::Compare(_, a, b) => {
            add_columns(a, columns)?;
            add_columns(b, columns)
        }
        CondTree::IsNull(expr) | CondTree::Like(expr, _) => add_columns(expr, columns),
        CondTree::Between(expr, least, greatest) => {
            add_columns(expr, columns)?;
            add_columns(least, columns)?;
            add_columns(greatest, columns)
        }
        CondTree::In(expr, choices) => {
            add_columns(expr, columns)?;
            add_of_each(choices, columns)
        }
        CondTree::Not(part) => add_of_condition(part, columns),
        CondTree::And(first, rest) | CondTree::Or(first, rest) => {
            add_of_condition(first, columns)?;
            for part in rest {
                add_of_condition(part, columns)?;
            }
            Ok(())
        }
    }
}

/// Adds the columns that the expression reads.
#[cycle(columns)]
pub fn add_columns(tree: &ExprTree, columns: &mut Vec<usize>) -> Result<(), AllocError> {
    match tree {
        ExprTree::Column(place) => add(*place, columns),
        ExprTree::Literal(_) => Ok(()),
        ExprTree::Negate(part) | ExprTree::Extract(_, part) => add_columns(part, columns),
        ExprTree::Sum(first, rest) | ExprTree::Product(first, rest) => {
            add_columns(first, columns)?;
            add_of_each(rest, columns)
        }
    }
}

/// Adds those that each of several reads.
#[cycle(columns)]
fn add_of_each(trees: &[ExprTree], columns: &mut Vec<usize>) -> Result<(), AllocError> {
    for tree in trees {
        add_columns(tree, columns)?;
    }
    Ok(())
}

/// Puts the column where it belongs, unless it is there.
fn add(place: usize, columns: &mut Vec<usize>) -> Result<(), AllocError> {
    let at = columns.partition_point(|column| *column < place);
    if columns.get(at) != Some(&place) {
        columns.insert(at, place)?;
    }
    Ok(())
}
