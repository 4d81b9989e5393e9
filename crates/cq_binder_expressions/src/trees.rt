//! What nodes come to: values and conditions, and chains of them.
//!
//! A [`Tree`] is made of each node, of those of its parts, and is taken as a value or as a condition by the node above it.
//! It owns its parts; a chain costs one box, for its first part.
ghost use Rattle.std.specs.Prelude.{◌≡◌, IfOk};
ghost use Rattle.cq_model.specs.Trees.{cond_of, expr_of};
ghost use Rattle.cq_binder_expressions.specs.Nodes.{MakesAnd, MakesOr, MakesProduct, MakesSum, condition_in, value_in};

use cq_model::{CondTree, ExprTree};
use cq_values::Value;
use std::alloc::{AllocError, Global};

/// What is written: a value or a condition.
#[derive(Drop)]
pub(crate) enum Tree {
    Value(ExprTree),
    Condition(CondTree),
}

impl Tree {
    /// The value that it is. A condition is none, and NULL stands for it.
    pub(crate) fn into_value(self) -> ExprTree
        ensures { expr_of result ≡ value_in self }
    {
        match self {
            Tree::Value(value) => value,
            Tree::Condition(_) => ExprTree::Literal(Value::Null),
        }
    }

    /// The condition that it is. A value is none, and whether it is NULL stands for it.
    pub(crate) fn into_condition(self) -> CondTree
        ensures { cond_of result ≡ condition_in self }
    {
        match self {
            Tree::Value(value) => CondTree::IsNull(value),
            Tree::Condition(condition) => condition,
        }
    }
}

/// A product of these factors. One alone is that factor.
pub(crate) fn product_tree(
    alloc: Global,
    first: Tree,
    rest: Vec<ExprTree>,
) -> Result<Tree, AllocError>
    ensures { IfOk result (MakesProduct first rest) }
{
    if rest.is_empty() {
        return Ok(first);
    }
    let first = Box::new(alloc, first.into_value())?;
    Ok(Tree::Value(ExprTree::Product(first, rest)))
}

/// A sum of these terms. One alone is that term.
pub(crate) fn sum_tree(alloc: Global, first: Tree, rest: Vec<ExprTree>) -> Result<Tree, AllocError>
    ensures { IfOk result (MakesSum first rest) }
{
    if rest.is_empty() {
        return Ok(first);
    }
    let first = Box::new(alloc, first.into_value())?;
    Ok(Tree::Value(ExprTree::Sum(first, rest)))
}

/// AND of these conditions. One alone is that condition.
pub(crate) fn and_tree(alloc: Global, first: Tree, rest: Vec<CondTree>) -> Result<Tree, AllocError>
    ensures { IfOk result (MakesAnd first rest) }
{
    if rest.is_empty() {
        return Ok(first);
    }
    let first = Box::new(alloc, first.into_condition())?;
    Ok(Tree::Condition(CondTree::And(first, rest)))
}

/// OR of these conditions. One alone is that condition.
pub(crate) fn or_tree(alloc: Global, first: Tree, rest: Vec<CondTree>) -> Result<Tree, AllocError>
    ensures { IfOk result (MakesOr first rest) }
{
    if rest.is_empty() {
        return Ok(first);
    }
    let first = Box::new(alloc, first.into_condition())?;
    Ok(Tree::Condition(CondTree::Or(first, rest)))
}
