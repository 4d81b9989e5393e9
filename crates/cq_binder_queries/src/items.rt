//! The items of a query, each behind the aggregates of those before it.
ghost use Rattle.cq_binder_expressions.specs.Expressions.{scope_of};
ghost use Rattle.cq_binder_queries.specs.Items.{BindsItems, BindsNode};

use cq_binder_expressions::{Scope, bind_item, bind_kept};
use cq_binder_rules::Fault;
use cq_model::{Aggregate, Expr};
use cq_sql_language::{ExprNode, SelectItem};
use cq_values::Seq;
use std::alloc::Global;

/// What items are shown for.
#[derive(Clone, Copy, Debug, PartialEq, Eq)]
pub(crate) enum Purpose {
    /// A SELECT lists them.
    Listed,
    /// A view keeps them, so each has a type of its own.
    Kept,
}

/// The values of the items, once each has been walked through. Their aggregates are put behind these.
pub(crate) fn bound_items(
    alloc: Global,
    scope: &Scope<'_>,
    purpose: Purpose,
    aggregates: &mut Seq<Aggregate>,
    items: &[SelectItem],
) -> Result<Seq<Expr>, Fault>
    ensures { BindsItems purpose (scope_of scope.now) aggregates.old aggregates.new items.now result }
{
    let mut values = Seq::new(alloc);
    for item in items {
        values.push(bound_item(alloc, scope, purpose, aggregates, item.value.node())?)?;
    }
    Ok(values)
}

fn bound_item(
    alloc: Global,
    scope: &Scope<'_>,
    purpose: Purpose,
    aggregates: &mut Seq<Aggregate>,
    value: &ExprNode,
) -> Result<Expr, Fault>
    ensures { BindsNode purpose scope.now aggregates.old aggregates.new value.now result }
{
    match purpose {
        Purpose::Listed => bind_item(alloc, scope, aggregates, value),
        Purpose::Kept => bind_kept(alloc, scope, aggregates, value),
    }
}
