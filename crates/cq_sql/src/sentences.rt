//! Texts as statements.
ghost use Rattle.cq_sql.specs.Parses.{Parses};

use crate::grammar::tree_of;
use cq_sql_expressions::SqlFault;
use cq_sql_language::Statement;
use cq_sql_tokens::{TokenFault, is_past_limits, one_cut, tokens};
use std::alloc::Global;

/// The tree of a piece. A fault of its tokens is told before a limit, and a limit before the grammar.
pub fn parse(alloc: Global, text: &str) -> Result<Statement, SqlFault>
    ensures { Parses text.now result }
{
    one_cut();
    let tokens = match tokens(alloc, text) {
        Ok(tokens) => tokens,
        Err(TokenFault::Memory) => return Err(SqlFault::Memory),
        Err(TokenFault::Syntax) => return Err(SqlFault::Syntax),
    };
    if is_past_limits(tokens.as_slice()) {
        return Err(SqlFault::LimitExceeded);
    }
    tree_of(alloc, tokens.as_slice())
}
