//! Expressions that are asked for as a whole: a condition as behind WHERE and HAVING, a value as an item or behind SET.
ghost use Rattle.std.specs.Prelude.{◌≡◌, IfOk, Ok};
ghost use Rattle.cq_binder_rules.specs.Kinds.{kind_type};
ghost use Rattle.cq_binder_rules.specs.Scopes.{bound_condition, bound_value};
ghost use Rattle.cq_binder_rules.specs.Typing.{condition_fault, set_fault, type_of, typed};
ghost use Rattle.cq_binder_expressions.specs.Nodes.{PlacesValue};
ghost use Rattle.cq_binder_expressions.specs.Expressions.{Places, PlacesCondition, PlacesItem, PlacesKept, scope_of};
ghost use Rattle.cq_sql_language.specs.Written.{written};

use crate::placing::tree_of;
use crate::scope::Scope;
use crate::typings;
use crate::walk::{node_typing, typing_of};
use cq_binder_rules::{Fault, Kind, Typing};
use cq_model::{Aggregate, Cond, Expr};
use cq_sql_language::{ExprNode, SqlExpr};
use cq_values::{Seq, Ty};
use std::alloc::{AllocError, Global};

/// The condition with places for names, over rows. It is refused with its first fault, and last for being none.
pub fn bind_condition(alloc: Global, scope: &Scope<'_>, condition: &SqlExpr) -> Result<Cond, Fault>
    ensures { Places bound_condition condition_fault (scope_of scope.now) condition.now result }
{
    let mut none = Seq::new(alloc);
    bind_having(alloc, scope, &mut none, condition)
}

/// The condition with places for names, as HAVING keeps groups by it: its aggregates are put behind these. It is refused
/// with its first fault, and last for being none.
pub fn bind_having(
    alloc: Global,
    scope: &Scope<'_>,
    aggregates: &mut Seq<Aggregate>,
    condition: &SqlExpr,
) -> Result<Cond, Fault>
    ensures { PlacesCondition (scope_of scope.now) aggregates.old aggregates.new condition.now result }
{
    let typing = typing_of(scope, condition)?;
    typings::negation_of(typing)?;
    let tree = tree_of(alloc, scope, aggregates, condition.node())?;
    Ok(Cond::new(tree.into_condition()))
}

/// The value with places for names, as an item shows it: its aggregates are put behind these. It is refused with its first
/// fault, and last for being none.
pub fn bind_item(
    alloc: Global,
    scope: &Scope<'_>,
    aggregates: &mut Seq<Aggregate>,
    value: &ExprNode,
) -> Result<Expr, Fault>
    ensures { PlacesItem (scope_of scope.now) aggregates.old aggregates.new (written value.now) result }
{
    let typing = node_typing(scope, value)?;
    typings::tested(typing)?;
    Ok(placed(alloc, scope, aggregates, value)?)
}

/// The value with places for names, as a column of a view keeps it: its aggregates are put behind these. It is refused with
/// its first fault, and last for being none, or NULL alone.
pub fn bind_kept(
    alloc: Global,
    scope: &Scope<'_>,
    aggregates: &mut Seq<Aggregate>,
    value: &ExprNode,
) -> Result<Expr, Fault>
    ensures { PlacesKept (scope_of scope.now) aggregates.old aggregates.new (written value.now) result }
{
    let typing = node_typing(scope, value)?;
    typings::kept_value(typing)?;
    Ok(placed(alloc, scope, aggregates, value)?)
}

/// The value with places for names, as a column of this type is set to it, where the walk through it gave this typing.
/// It is refused for being none of that type.
pub fn bind_of(
    alloc: Global,
    scope: &Scope<'_>,
    value: &ExprNode,
    typing: Typing,
    ty: Ty,
) -> Result<Expr, Fault>
    requires { typed (scope_of scope.now) (written value.now) ≡ Ok typing }
    ensures { Places bound_value (set_fault ty) (scope_of scope.now) (written value.now) result }
{
    typings::of_type(ty, typing)?;
    let mut none = Seq::new(alloc);
    Ok(placed(alloc, scope, &mut none, value)?)
}

/// The type of a value without a fault.
pub fn type_of(scope: &Scope<'_>, value: &SqlExpr) -> Ty
    ensures { result ≡ type_of (typed (scope_of scope.now) value.now) }
{
    match typing_of(scope, value) {
        Ok(typing) => kind_type(typing.kind),
        Err(_) => Ty::Integer,
    }
}

fn kind_type(kind: Kind) -> Ty
    ensures { result ≡ kind_type kind }
{
    match kind {
        Kind::Value(ty) => ty,
        Kind::Condition | Kind::Null => Ty::Integer,
    }
}

fn placed(
    alloc: Global,
    scope: &Scope<'_>,
    aggregates: &mut Seq<Aggregate>,
    value: &ExprNode,
) -> Result<Expr, AllocError>
    ensures { IfOk result (PlacesValue scope.now aggregates.old aggregates.new value.now) }
{
    let tree = tree_of(alloc, scope, aggregates, value)?;
    Ok(Expr::new(tree.into_value()))
}
