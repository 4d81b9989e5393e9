//! The clauses of a query from WHERE on.
ghost use Rattle.std.specs.Prelude.{◌≡◌};
ghost use Rattle.cq_sql_expressions.specs.Gives.{Gives};
ghost use Rattle.cq_sql.specs.Queries.{later_at};

use crate::names::{ColumnNames, Numbers};
use crate::order::OrderKeys;
use cq_sql_expressions::{SqlExpressions, SqlFault, list_behind, tail_of};
use cq_sql_language::{ColumnName, Keyword, OrderKey, SqlExpr, Token};
use cq_values::{Seq, both};
use std::alloc::Global;

/// The clauses of a query from WHERE on. Lists that may be left out are empty then.
#[derive(Drop)]
pub struct LaterClauses {
    pub condition: Option<SqlExpr>,
    pub group: Seq<ColumnName>,
    pub having: Option<SqlExpr>,
    pub order: Seq<OrderKey>,
    pub limit: Option<u128>,
}

/// The clauses from WHERE on, as far as they are there.
#[tactic(auto, unfolding(crate::specs::Queries::later_at))]
pub fn later_at(alloc: Global, tokens: &[Token]) -> Result<(LaterClauses, &[Token]), SqlFault>
    ensures { Gives (λ x. (x.0, x.1.now)) result (later_at tokens.now) }
{
    let (condition, rest) = tail_of::<SqlExpressions>(alloc, Keyword::Where, tokens)?;
    let group = list_behind::<ColumnNames>(alloc, Keyword::Group, rest);
    let (condition, (group, rest)) = both(condition, group)?;
    let having = tail_of::<SqlExpressions>(alloc, Keyword::Having, rest);
    let ((condition, group), (having, rest)) = both((condition, group), having)?;
    let order = list_behind::<OrderKeys>(alloc, Keyword::Order, rest);
    let ((condition, group, having), (order, rest)) = both((condition, group, having), order)?;
    let limit = tail_of::<Numbers>(alloc, Keyword::Limit, rest);
    let ((condition, group, having, order), (limit, rest)) = both(
        (condition, group, having, order),
        limit,
    )?;
    let later = LaterClauses {
        condition,
        group,
        having,
        order,
        limit,
    };
    Ok((later, rest))
}
