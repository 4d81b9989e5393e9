//! Whether an aggregate stands in an expression.
ghost use Rattle.std.specs.Prelude.{◌≡◌, map};
ghost use Rattle.std.specs.List.{list_any};
ghost use Rattle.cq_sql_language.specs.Written.{written};
ghost use Rattle.cq_binder_rules.specs.Grouping.{has_aggregate};

use cq_sql_language::ExprNode;

/// Whether an aggregate stands in the expression.
#[cycle(aggregates)]
pub fn has_aggregate(node: &ExprNode) -> bool
    ensures { result ≡ has_aggregate (written node.now) }
{
    match node {
        ExprNode::CountAll | ExprNode::Aggregate(..) => true,
        ExprNode::Number(_)
        | ExprNode::Text(_)
        | ExprNode::Date(_)
        | ExprNode::Null
        | ExprNode::Column(_) => false,
        ExprNode::Extract(_, part)
        | ExprNode::Parens(part)
        | ExprNode::Negative(part)
        | ExprNode::IsNull(_, part)
        | ExprNode::Like(_, part, _)
        | ExprNode::Not(part) => has_aggregate(part),
        ExprNode::Compare(_, a, b) => has_aggregate(a) || has_aggregate(b),
        ExprNode::Between(_, value, least, greatest) => {
            has_aggregate(value) || has_aggregate(least) || has_aggregate(greatest)
        }
        ExprNode::In(_, value, entries) => has_aggregate(value) || any_has_aggregate(entries),
        ExprNode::Product(first, others)
        | ExprNode::And(first, others)
        | ExprNode::Or(first, others) => has_aggregate(first) || any_has_aggregate(others),
        ExprNode::Sum(first, signs, others) => {
            let others = &others[..signs.len().min(others.len())];
            has_aggregate(first) || any_has_aggregate(others)
        }
    }
}

#[cycle(aggregates)]
fn any_has_aggregate(nodes: &[ExprNode]) -> bool
    ensures { result ≡ list_any has_aggregate (map written nodes.now) }
{
    for node in nodes {
        if has_aggregate(node) {
            return true;
        }
    }
    false
}
