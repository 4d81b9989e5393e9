//! What is written with places for names, and aggregates as columns of a group's row.
ghost use Rattle.std.specs.Prelude.{◌≡◌, ◌+◌, ◌++◌, ◌∷◌, [], IfOk, OnOk, length, true};
ghost use Rattle.cq_model.specs.Trees.{cond_of, expr_of};
ghost use Rattle.cq_binder_rules.specs.Placed.{aggregate_of, named_day, turned, written_number};
ghost use Rattle.cq_binder_rules.specs.Places.{next_place};
ghost use Rattle.cq_binder_expressions.specs.Expressions.{scope_of};
ghost use Rattle.cq_binder_expressions.specs.Nodes.{MakesConditions, MakesTerms, MakesValues, PlacesNode, is_connective, is_operation, is_test};
ghost use Rattle.cq_binder_expressions.specs.Terms.{signed_term};

use crate::scope::Scope;
use crate::trees::{Tree, and_tree, or_tree, product_tree, sum_tree};
use cq_model::{Aggregate, CondTree, Expr, ExprTree};
use cq_sql_language::{AggregateFunction, ExprNode, Sign};
use cq_values::{Seq, Value, both, date_of};
use std::alloc::{AllocError, Global};

/// What a node says. Its aggregates are put behind these. A chain of one part is that part.
#[cycle(trees)]
pub(crate) fn tree_of(
    alloc: Global,
    scope: &Scope<'_>,
    aggregates: &mut Seq<Aggregate>,
    node: &ExprNode,
) -> Result<Tree, AllocError>
    ensures { IfOk result (PlacesNode scope.now aggregates.old node.now aggregates.new) }
{
    match node {
        ExprNode::Number(n) => Ok(Tree::Value(ExprTree::Literal(whole(*n)))),
        ExprNode::Text(text) => Ok(Tree::Value(ExprTree::Literal(Value::Text(text.copy(alloc)?)))),
        ExprNode::Date(text) => Ok(Tree::Value(ExprTree::Literal(day(text.as_str())))),
        ExprNode::Null => Ok(Tree::Value(ExprTree::Literal(Value::Null))),
        ExprNode::Column(column) => Ok(Tree::Value(ExprTree::Column(scope.place_of(column)))),
        ExprNode::Extract(..)
        | ExprNode::Negative(..)
        | ExprNode::Product(..)
        | ExprNode::Sum(..) => operation_tree(alloc, scope, aggregates, node),
        ExprNode::CountAll => {
            let place = push_aggregate(scope, aggregates, Aggregate::CountAll)?;
            Ok(Tree::Value(ExprTree::Column(place)))
        }
        ExprNode::Aggregate(function, argument) => {
            let mut none = Seq::new(alloc);
            let argument = tree_of(alloc, &scope.rows(), &mut none, argument);
            drop(none);
            let aggregate = aggregate_of(*function, Expr::new(argument?.into_value()));
            let place = push_aggregate(scope, aggregates, aggregate)?;
            Ok(Tree::Value(ExprTree::Column(place)))
        }
        ExprNode::Parens(inner) => tree_of(alloc, scope, aggregates, inner),
        ExprNode::Compare(..)
        | ExprNode::IsNull(..)
        | ExprNode::Between(..)
        | ExprNode::In(..)
        | ExprNode::Like(..) => test_tree(alloc, scope, aggregates, node),
        ExprNode::Not(..) | ExprNode::And(..) | ExprNode::Or(..) => {
            connective_tree(alloc, scope, aggregates, node)
        }
    }
}

/// What an operation on values says.
#[cycle(trees)]
fn operation_tree(
    alloc: Global,
    scope: &Scope<'_>,
    aggregates: &mut Seq<Aggregate>,
    node: &ExprNode,
) -> Result<Tree, AllocError>
    requires { is_operation node.now ≡ true }
    ensures { IfOk result (PlacesNode scope.now aggregates.old node.now aggregates.new) }
{
    match node {
        ExprNode::Extract(part, value) => {
            let value = tree_of(alloc, scope, aggregates, value)?.into_value();
            Ok(Tree::Value(ExprTree::Extract(*part, Box::new(alloc, value)?)))
        }
        ExprNode::Negative(value) => {
            let value = tree_of(alloc, scope, aggregates, value)?.into_value();
            Ok(Tree::Value(ExprTree::Negate(Box::new(alloc, value)?)))
        }
        ExprNode::Product(first, rest) => {
            let first = tree_of(alloc, scope, aggregates, first)?;
            let (first, rest) = both(first, value_trees(alloc, scope, aggregates, rest))?;
            Ok(product_tree(alloc, first, rest)?)
        }
        ExprNode::Sum(first, signs, rest) => {
            let first = tree_of(alloc, scope, aggregates, first)?;
            let (first, rest) = both(first, term_trees(alloc, scope, aggregates, signs, rest))?;
            Ok(sum_tree(alloc, first, rest)?)
        }
        _ => unreachable!(),
    }
}

/// What a test of values says.
#[cycle(trees)]
fn test_tree(
    alloc: Global,
    scope: &Scope<'_>,
    aggregates: &mut Seq<Aggregate>,
    node: &ExprNode,
) -> Result<Tree, AllocError>
    requires { is_test node.now ≡ true }
    ensures { IfOk result (PlacesNode scope.now aggregates.old node.now aggregates.new) }
{
    match node {
        ExprNode::Compare(comparison, a, b) => {
            let a = tree_of(alloc, scope, aggregates, a)?.into_value();
            let (a, b) = both(a, tree_of(alloc, scope, aggregates, b))?;
            Ok(Tree::Condition(CondTree::Compare(*comparison, a, b.into_value())))
        }
        ExprNode::IsNull(negated, value) => {
            let value = tree_of(alloc, scope, aggregates, value)?.into_value();
            let test = turned(alloc, *negated, CondTree::IsNull(value))?;
            Ok(Tree::Condition(test))
        }
        ExprNode::Between(negated, value, least, greatest) => {
            let value = tree_of(alloc, scope, aggregates, value)?.into_value();
            let (value, least) = both(value, tree_of(alloc, scope, aggregates, least))?;
            let ((value, least), greatest) = both(
                (value, least),
                tree_of(alloc, scope, aggregates, greatest),
            )?;
            let (least, greatest) = (least.into_value(), greatest.into_value());
            let test = turned(alloc, *negated, CondTree::Between(value, least, greatest))?;
            Ok(Tree::Condition(test))
        }
        ExprNode::In(negated, value, choices) => {
            let value = tree_of(alloc, scope, aggregates, value)?.into_value();
            let (value, choices) = both(value, value_trees(alloc, scope, aggregates, choices))?;
            let test = turned(alloc, *negated, CondTree::In(value, choices))?;
            Ok(Tree::Condition(test))
        }
        ExprNode::Like(negated, value, pattern) => {
            let pattern = pattern.copy(alloc)?;
            let value = tree_of(alloc, scope, aggregates, value)?.into_value();
            let test = turned(alloc, *negated, CondTree::Like(value, pattern))?;
            Ok(Tree::Condition(test))
        }
        _ => unreachable!(),
    }
}

/// What NOT, AND or OR says of conditions.
#[cycle(trees)]
fn connective_tree(
    alloc: Global,
    scope: &Scope<'_>,
    aggregates: &mut Seq<Aggregate>,
    node: &ExprNode,
) -> Result<Tree, AllocError>
    requires { is_connective node.now ≡ true }
    ensures { IfOk result (PlacesNode scope.now aggregates.old node.now aggregates.new) }
{
    match node {
        ExprNode::Not(part) => {
            let part = tree_of(alloc, scope, aggregates, part)?.into_condition();
            Ok(Tree::Condition(CondTree::Not(Box::new(alloc, part)?)))
        }
        ExprNode::And(first, rest) => {
            let first = tree_of(alloc, scope, aggregates, first)?;
            let (first, rest) = both(first, condition_trees(alloc, scope, aggregates, rest))?;
            Ok(and_tree(alloc, first, rest)?)
        }
        ExprNode::Or(first, rest) => {
            let first = tree_of(alloc, scope, aggregates, first)?;
            let (first, rest) = both(first, condition_trees(alloc, scope, aggregates, rest))?;
            Ok(or_tree(alloc, first, rest)?)
        }
        _ => unreachable!(),
    }
}

/// The values that are written one after another.
#[cycle(trees)]
fn value_trees(
    alloc: Global,
    scope: &Scope<'_>,
    aggregates: &mut Seq<Aggregate>,
    nodes: &[ExprNode],
) -> Result<Vec<ExprTree>, AllocError>
    ensures { IfOk result (MakesValues scope.now aggregates.old nodes.now aggregates.new) }
{
    let mut trees = Vec::with_capacity(alloc, nodes.len())?;
    for node in nodes {
        trees.push(tree_of(alloc, scope, aggregates, node)?.into_value())?;
    }
    Ok(trees)
}

/// The later terms of a sum.
#[cycle(trees)]
fn term_trees(
    alloc: Global,
    scope: &Scope<'_>,
    aggregates: &mut Seq<Aggregate>,
    signs: &[Sign],
    nodes: &[ExprNode],
) -> Result<Vec<ExprTree>, AllocError>
    ensures { IfOk result (MakesTerms scope.now aggregates.old signs.now nodes.now aggregates.new) }
{
    let mut terms = Vec::with_capacity(alloc, nodes.len())?;
    for (sign, node) in signs.iter().zip(nodes) {
        let term = tree_of(alloc, scope, aggregates, node)?.into_value();
        terms.push(signed_tree(alloc, *sign, term)?)?;
    }
    Ok(terms)
}

/// The conditions that are written one after another.
#[cycle(trees)]
fn condition_trees(
    alloc: Global,
    scope: &Scope<'_>,
    aggregates: &mut Seq<Aggregate>,
    nodes: &[ExprNode],
) -> Result<Vec<CondTree>, AllocError>
    ensures { IfOk result (MakesConditions scope.now aggregates.old nodes.now aggregates.new) }
{
    let mut trees = Vec::with_capacity(alloc, nodes.len())?;
    for node in nodes {
        trees.push(tree_of(alloc, scope, aggregates, node)?.into_condition())?;
    }
    Ok(trees)
}

/// A term behind a minus is negated.
fn signed_tree(alloc: Global, sign: Sign, term: ExprTree) -> Result<ExprTree, AllocError>
    ensures { IfOk result (λ t. expr_of t ≡ signed_term sign (expr_of term)) }
{
    match sign {
        Sign::Plus => Ok(term),
        Sign::Minus => Ok(ExprTree::Negate(Box::new(alloc, term)?)),
    }
}

/// Puts an aggregate behind these, and tells where it stands in its group's row.
fn push_aggregate(
    scope: &Scope<'_>,
    aggregates: &mut Seq<Aggregate>,
    aggregate: Aggregate,
) -> Result<usize, AllocError>
    ensures place { IfOk result (λ place. place ≡ next_place (scope_of scope.now) aggregates.old) }
    ensures pushed { OnOk result (aggregates.new ≡ aggregates.old ++ aggregate ∷ []) }
{
    let place = place_behind(scope.key(), aggregates.as_slice());
    aggregates.push(aggregate)?;
    Ok(place)
}

/// Where the next aggregate stands in a group's row: behind the key and the aggregates so far.
fn place_behind(key: &[usize], aggregates: &[Aggregate]) -> usize
    ensures { result ≡ length key.now + length aggregates.now }
{
    key.len() + aggregates.len()
}

/// An aggregate of an argument's values.
fn aggregate_of(function: AggregateFunction, argument: Expr) -> Aggregate
    ensures { result ≡ aggregate_of function argument }
{
    match function {
        AggregateFunction::Count => Aggregate::Count(argument),
        AggregateFunction::CountDistinct => Aggregate::CountDistinct(argument),
        AggregateFunction::Sum => Aggregate::Sum(argument),
        AggregateFunction::Min => Aggregate::Min(argument),
        AggregateFunction::Max => Aggregate::Max(argument),
    }
}

/// A whole number, and NULL where it has more than 127 bits.
fn whole(n: u128) -> Value
    ensures { result ≡ written_number n }
{
    match i128::try_from(n) {
        Ok(number) => Value::Number(number),
        Err(_) => Value::Null,
    }
}

/// The day that a text names, and NULL where it names none.
fn day(text: &str) -> Value
    ensures { result ≡ named_day text.now }
{
    match date_of(text) {
        Ok(day) => Value::Day(day),
        Err(_) => Value::Null,
    }
}

/// NOT in a test negates the whole test.
fn turned(alloc: Global, negated: bool, test: CondTree) -> Result<CondTree, AllocError>
    ensures { IfOk result (λ t. cond_of t ≡ turned negated (cond_of test)) }
{
    if negated {
        Ok(CondTree::Not(Box::new(alloc, test)?))
    } else {
        Ok(test)
    }
}
