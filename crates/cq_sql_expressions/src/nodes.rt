//! Expressions put together from their parts.
ghost use Rattle.std.specs.Prelude.{◌≡◌, ◌∷◌, ◌++◌, [], IfOk, OnOk, fold};
ghost use Rattle.cq_sql_language.specs.Written.{choices, terms, written};
ghost use Rattle.cq_sql_language.specs.Written as tree;
ghost use Rattle.cq_sql_expressions.specs.Trees.{IsMade, trees};
ghost use Rattle.cq_sql_expressions.specs.Chains.{enclosed, join};

use crate::atoms::Opening;
use crate::separators::Operator;
use cq_sql_language::{ExprNode, Sign};
use cq_values::{Comparison, Text, both};
use std::alloc::{AllocError, AllocFailed, Global};

/// A chain of parts. One part alone is that part itself.
pub fn joined(
    alloc: Global,
    operator: Operator,
    first: ExprNode,
    others: Vec<ExprNode>,
) -> Result<ExprNode, AllocFailed<ExprNode>>
    ensures { IsMade result (fold (join operator) (written first) (trees others)) }
{
    if others.is_empty() {
        return Ok(first);
    }
    let first = Box::new(alloc, first)?;
    Ok(match operator {
        Operator::Or => ExprNode::Or(first, others),
        Operator::And => ExprNode::And(first, others),
        Operator::Times => ExprNode::Product(first, others),
    })
}

/// A sum of terms. One term alone is that term itself.
#[tactic(auto, using(crate::proofs::Sums::terms_none))]
pub fn summed(
    alloc: Global,
    first: ExprNode,
    signs: Vec<Sign>,
    others: Vec<ExprNode>,
) -> Result<ExprNode, AllocFailed<ExprNode>>
    ensures { IsMade result (terms (written first) signs.items (trees others)) }
{
    if others.is_empty() {
        return Ok(first);
    }
    Ok(ExprNode::Sum(Box::new(alloc, first)?, signs, others))
}

/// What stands in parentheses, with them.
pub fn enclosed(
    alloc: Global,
    opening: Opening,
    content: ExprNode,
) -> Result<ExprNode, AllocFailed<ExprNode>>
    ensures { IsMade result (enclosed opening (written content)) }
{
    let content = Box::new(alloc, content)?;
    Ok(match opening {
        Opening::Parens => ExprNode::Parens(content),
        Opening::Extract(part) => ExprNode::Extract(part, content),
        Opening::Aggregate(function) => ExprNode::Aggregate(function, content),
    })
}

/// The value with a minus in front.
pub fn negative(alloc: Global, value: ExprNode) -> Result<ExprNode, AllocFailed<ExprNode>>
    ensures { IsMade result (tree.Negative (written value)) }
{
    Ok(ExprNode::Negative(Box::new(alloc, value)?))
}

/// The condition with NOT in front.
pub fn negation(alloc: Global, condition: ExprNode) -> Result<ExprNode, AllocFailed<ExprNode>>
    ensures { IsMade result (tree.Not (written condition)) }
{
    Ok(ExprNode::Not(Box::new(alloc, condition)?))
}

/// Two values and the comparison between them.
pub fn compared(
    alloc: Global,
    comparison: Comparison,
    left: ExprNode,
    right: ExprNode,
) -> Result<ExprNode, AllocFailed<ExprNode>>
    ensures { IsMade result (tree.Compare comparison (written left) (written right)) }
{
    let (left, right) = boxed(alloc, left, right)?;
    Ok(ExprNode::Compare(comparison, left, right))
}

/// Both in boxes.
fn boxed(
    alloc: Global,
    left: ExprNode,
    right: ExprNode,
) -> Result<(Box<ExprNode>, Box<ExprNode>), AllocFailed<ExprNode>>
    ensures left { IfOk result (λ boxes. boxes.0.value ≡ left) }
    ensures right { IfOk result (λ boxes. boxes.1.value ≡ right) }
{
    let (right, left) = both(right, Box::new(alloc, left))?;
    both(left, Box::new(alloc, right))
}

/// The value with a test of whether it is NULL.
pub fn null_test(
    alloc: Global,
    negated: bool,
    value: ExprNode,
) -> Result<ExprNode, AllocFailed<ExprNode>>
    ensures { IsMade result (tree.IsNull negated (written value)) }
{
    Ok(ExprNode::IsNull(negated, Box::new(alloc, value)?))
}

/// The value with the pattern that it is to be like.
pub fn like(
    alloc: Global,
    negated: bool,
    value: ExprNode,
    pattern: Text,
) -> Result<ExprNode, AllocFailed<ExprNode>>
    ensures { IsMade result (tree.Like negated (written value) pattern) }
{
    Ok(ExprNode::Like(negated, Box::new(alloc, value)?, pattern))
}

/// A list of one.
pub fn only(alloc: Global, first: ExprNode) -> Result<Vec<ExprNode>, AllocFailed<ExprNode>>
    ensures { IfOk result (λ v. v.items ≡ first ∷ []) }
{
    let mut items = Vec::new(alloc);
    items.push(first)?;
    Ok(items)
}

/// The value with the choices among which it is to be.
pub fn among(
    alloc: Global,
    negated: bool,
    value: ExprNode,
    values: Vec<ExprNode>,
) -> Result<ExprNode, AllocFailed<ExprNode>>
    ensures { IsMade result (tree.In negated (written value) (choices (trees values))) }
{
    Ok(ExprNode::In(negated, Box::new(alloc, value)?, values))
}

/// The value, the least and the greatest that pass.
pub fn between(
    alloc: Global,
    negated: bool,
    value: ExprNode,
    ends: (ExprNode, ExprNode),
) -> Result<ExprNode, AllocFailed<ExprNode>>
    ensures { IsMade result (tree.Between negated (written value) (written ends.0) (written ends.1)) }
{
    let (value, ends) = both(value, boxed(alloc, ends.0, ends.1))?;
    let ((least, greatest), value) = both(ends, Box::new(alloc, value))?;
    Ok(ExprNode::Between(negated, value, least, greatest))
}

/// Puts a later term of a sum behind these, and its sign behind theirs.
pub fn add_term(
    signs: &mut Vec<Sign>,
    terms: &mut Vec<ExprNode>,
    sign: Sign,
    term: ExprNode,
) -> Result<(), AllocError>
    ensures sign { OnOk result (signs.new.items ≡ signs.old.items ++ sign ∷ []) }
    ensures term { OnOk result (terms.new.items ≡ terms.old.items ++ term ∷ []) }
{
    terms.push(term)?;
    signs.push(sign)?;
    Ok(())
}
