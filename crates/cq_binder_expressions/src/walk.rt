//! The walk through an expression, node by node.
//!
//! A chain is walked by a loop, so that a long one takes no deep recursion.
ghost use Rattle.std.specs.Prelude.{◌≡◌, is_none, map, not, true};
ghost use Rattle.cq_values.specs.declared.ty.Ty.TheVariants.{Date};
ghost use Rattle.cq_values.specs.Dates.{day_named};
ghost use Rattle.cq_sql_language.specs.Written.{choices, written};
ghost use Rattle.cq_sql_language.specs.Written as tree;
ghost use Rattle.cq_binder_rules.specs.declared.fault.Fault.TheVariants.{BadDate};
ghost use Rattle.cq_binder_rules.specs.Kinds.{unless, value_of};
ghost use Rattle.cq_binder_rules.specs.Typing.{listed, of_group, size_at, type_at, typed};
ghost use Rattle.cq_binder_expressions.specs.Chains.{chained, joined};
ghost use Rattle.cq_binder_expressions.specs.Expressions.{scope_of};

use crate::scope::{Scope, ScopeColumn, resolved};
use crate::typings;
use cq_binder_rules::{Fault, Kind, Typing};
use cq_sql_language::{ColumnName, ExprNode, SqlExpr};
use cq_values::{Text, Ty, date_of};

/// What stands between the parts of a chain.
#[derive(Clone, Copy, Debug, PartialEq, Eq)]
enum Operator {
    Times,
    /// Plus, or minus.
    Plus,
    /// AND, or OR.
    Connect,
}

/// What NULL gives.
const A_NULL: Typing = Typing {
    kind: Kind::Null,
    size: 0,
};

/// What the expression gives, or its first fault: operands from left to right, and then the node that needs them.
pub fn typing_of(scope: &Scope<'_>, expr: &SqlExpr) -> Result<Typing, Fault>
    ensures { result ≡ typed (scope_of scope.now) expr.now }
{
    node_typing(scope, expr.node())
}

#[cycle(walk)]
pub(crate) fn node_typing(scope: &Scope<'_>, node: &ExprNode) -> Result<Typing, Fault>
    ensures { result ≡ typed (scope_of scope.now) (written node.now) }
{
    match node {
        ExprNode::Number(n) => typings::number_of(*n),
        ExprNode::Text(text) => typings::text_of(text),
        ExprNode::Date(text) => date_typing(text),
        ExprNode::Null => Ok(A_NULL),
        ExprNode::Column(column) => column_typing(scope, column),
        ExprNode::Extract(part, day) => typings::part_of(*part, node_typing(scope, day)?),
        ExprNode::CountAll => of_group(scope, typings::counted()),
        ExprNode::Aggregate(function, argument) => {
            let argument = node_typing(&scope.rows(), argument)?;
            of_group(scope, typings::aggregated(*function, argument)?)
        }
        ExprNode::Parens(inner) => node_typing(scope, inner),
        ExprNode::Negative(number) => typings::negative(node_typing(scope, number)?),
        ExprNode::Product(first, others) => {
            chain_typing(scope, Operator::Times, node_typing(scope, first)?, others)
        }
        ExprNode::Sum(first, signs, others) => {
            let others = &others[..signs.len().min(others.len())];
            chain_typing(scope, Operator::Plus, node_typing(scope, first)?, others)
        }
        ExprNode::Compare(_, a, b) => {
            typings::compared_with(node_typing(scope, a)?, node_typing(scope, b)?)
        }
        ExprNode::IsNull(_, value) => typings::tested(node_typing(scope, value)?),
        ExprNode::Between(_, value, least, greatest) => typings::between_them(
            node_typing(scope, value)?,
            node_typing(scope, least)?,
            node_typing(scope, greatest)?,
        ),
        ExprNode::In(_, value, entries) => in_typing(scope, node_typing(scope, value)?, entries),
        ExprNode::Like(_, value, pattern) => {
            typings::like_of(node_typing(scope, value)?, typings::text_of(pattern)?)
        }
        ExprNode::Not(condition) => typings::negation_of(node_typing(scope, condition)?),
        ExprNode::And(first, others) | ExprNode::Or(first, others) => {
            chain_typing(scope, Operator::Connect, node_typing(scope, first)?, others)
        }
    }
}

/// What an aggregate gives, where it may stand.
fn of_group(scope: &Scope<'_>, typing: Typing) -> Result<Typing, Fault>
    ensures { result ≡ of_group (scope_of scope.now) typing }
{
    if scope.grouped.is_some() {
        Ok(typing)
    } else {
        Err(Fault::AggregateMisplaced)
    }
}

/// A chain: each later part, and then the operator before it.
#[cycle(walk)]
fn chain_typing(
    scope: &Scope<'_>,
    operator: Operator,
    first: Typing,
    others: &[ExprNode],
) -> Result<Typing, Fault>
    ensures { result ≡ chained (scope_of scope.now) operator first (map written others.now) }
{
    let mut chain = first;
    for part in others {
        chain = joined(operator, chain, node_typing(scope, part)?)?;
    }
    Ok(chain)
}

/// The list behind IN: each entry, and then all have to agree with the value.
#[cycle(walk)]
fn in_typing(scope: &Scope<'_>, value: Typing, entries: &[ExprNode]) -> Result<Typing, Fault>
    ensures { result ≡ listed (scope_of scope.now) value true (choices (map written entries.now)) }
{
    let mut all_agree = true;
    for entry in entries {
        let entry = node_typing(scope, entry)?;
        all_agree = typings::agree_too(all_agree, value.kind, entry.kind);
    }
    typings::condition_if(all_agree)
}

fn joined(operator: Operator, x: Typing, y: Typing) -> Result<Typing, Fault>
    ensures { result ≡ joined operator x y }
{
    match operator {
        Operator::Times => typings::product_of(x, y),
        Operator::Plus => typings::sum_of(x, y),
        Operator::Connect => typings::connected(x, y),
    }
}

/// A day.
fn date_typing(text: &Text) -> Result<Typing, Fault>
    ensures { result ≡ unless (not (is_none (day_named text.now))) BadDate (value_of Date 0) }
{
    match date_of(text.as_str()) {
        Ok(_) => Ok(typings::value_of(Ty::Date, 0)),
        Err(_) => Err(Fault::BadDate),
    }
}

/// A column: where it stands, and then whether it may be read.
fn column_typing(scope: &Scope<'_>, column: &ColumnName) -> Result<Typing, Fault>
    ensures { result ≡ typed (scope_of scope.now) (tree.Column column.now) }
{
    let place = resolved(scope.columns, column)?;
    if !scope.may_read(place) {
        return Err(Fault::AggregateMisplaced);
    }
    Ok(typing_at(scope.columns, place))
}

/// What the column at a place gives.
fn typing_at(columns: &[ScopeColumn<'_>], place: usize) -> Typing
    ensures { result ≡ value_of (type_at columns.now place) (size_at columns.now place) }
{
    match columns.get(place) {
        Some(column) => typings::value_of(column.ty(), column.size()),
        None => typings::value_of(Ty::Integer, 0),
    }
}
