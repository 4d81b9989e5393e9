//! Tokens as expressions.
ghost use Rattle.std.specs.Prelude.{◌≡◌, IfOk};
ghost use Rattle.cq_sql_expressions.specs.Expressions.{expression_at, whole_expression};
ghost use Rattle.cq_sql_expressions.specs.Trees.{GivesTree};
ghost use Rattle.cq_sql_language.specs.Expression.{IsExpression};
ghost use Rattle.cq_sql_language.specs.Written.{Written, written};
ghost use Rattle.cq_sql_expressions.specs.Gives.{Gives};
ghost use Rattle.cq_sql_expressions.specs.declared.fault.SqlFault.TheVariants.{LimitExceeded, Syntax};

use crate::expressions::chain_at;
use crate::fault::SqlFault;
use crate::read::Readable;
use crate::separators::Operator;
use cq_sql_language::{ExprNode, SqlExpr, Token};
use std::alloc::Global;

/// The expression at the front of tokens, and the tokens behind it: as much as makes one.
#[tactic(auto, unfolding(crate::specs::Expressions::expression_at, crate::specs::Expressions::expression_of))]
fn expression_at(alloc: Global, tokens: &[Token]) -> Result<(ExprNode, &[Token]), SqlFault>
    ensures { GivesTree result (expression_at tokens.now) }
{
    chain_at(alloc, Operator::Or, tokens.len(), tokens)
}

/// Expressions, as far as one goes.
pub struct SqlExpressions;

impl Readable for SqlExpressions {
    type Item = SqlExpr;

    ghost reads = { expression_at };

    fn read(alloc: Global, tokens: &[Token]) -> Result<(SqlExpr, &[Token]), SqlFault> {
        let (node, rest) = expression_at(alloc, tokens)?;
        Ok((SqlExpr::new(node), rest))
    }
}

#[tactic(auto, unfolding(crate::specs::Expressions::whole_expression))]
fn whole_expression(alloc: Global, tokens: &[Token]) -> Result<ExprNode, SqlFault>
    ensures { Gives written result (whole_expression tokens.now) }
{
    let (expression, rest) = expression_at(alloc, tokens)?;
    if rest.is_empty() {
        Ok(expression)
    } else {
        Err(SqlFault::Syntax)
    }
}

/// The expression that these tokens are, all of them.
pub fn expression_of(alloc: Global, tokens: &[Token]) -> Result<ExprNode, SqlFault>
    ensures tree { IfOk result (λ e. IsExpression (written e) tokens.now) }
    ensures no_tree { result ≡ Err Syntax → (w : Written) → IsExpression w tokens.now → ⊥ }
    ensures within { result ≡ Err LimitExceeded → ⊥ }
{
    whole_expression(alloc, tokens)
}
