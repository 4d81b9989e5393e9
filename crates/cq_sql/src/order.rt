//! What a result is sorted by.
ghost use Rattle.std.specs.Prelude.{◌≡◌, Some};
ghost use Rattle.cq_sql_expressions.specs.Gives.{Gives};
ghost use Rattle.cq_sql.specs.Queries.{direction_at, order_key_at, output_at};

use cq_sql_expressions::{Readable, SqlFault};
use cq_sql_language::{Keyword, OrderKey, OutputColumn, Token};
use std::alloc::Global;

fn output_at(alloc: Global, tokens: &[Token]) -> Result<(OutputColumn, &[Token]), SqlFault>
    ensures { Gives (λ x. (x.0, x.1.now)) result (output_at tokens.now) }
{
    match tokens {
        [Token::Name(name), rest @ ..] => Ok((OutputColumn::Named(name.copy(alloc)?), rest)),
        [Token::Number(n), rest @ ..] => Ok((OutputColumn::At(*n), rest)),
        _ => Err(SqlFault::Syntax),
    }
}

/// Whether DESC is there, and the tokens behind it or behind ASC.
fn direction_at(tokens: &[Token]) -> (bool, &[Token])
    ensures { direction_at tokens.now ≡ Some (result.0, result.1.now) }
{
    match tokens {
        [Token::Keyword(Keyword::Desc), rest @ ..] => (true, rest),
        [Token::Keyword(Keyword::Asc), rest @ ..] => (false, rest),
        _ => (false, tokens),
    }
}

pub struct OrderKeys;

impl Readable for OrderKeys {
    type Item = OrderKey;

    ghost reads = { order_key_at };

    #[tactic(auto, unfolding(crate::specs::Queries::order_key_at))]
    fn read(alloc: Global, tokens: &[Token]) -> Result<(OrderKey, &[Token]), SqlFault> {
        let (column, rest) = output_at(alloc, tokens)?;
        let (is_descending, rest) = direction_at(rest);
        let key = OrderKey {
            column,
            is_descending,
        };
        Ok((key, rest))
    }
}
