//! Constants.
ghost use Rattle.cq_sql_expressions.specs.Gives.{Gives};
ghost use Rattle.cq_sql.specs.Parts.{constant_at, literal_at, number_constant_at};

use cq_sql_expressions::{Readable, SqlFault};
use cq_sql_language::{Constant, Keyword, Literal, Symbol, Token};
use std::alloc::Global;

fn literal_at(tokens: &[Token]) -> Result<(Literal, &[Token]), SqlFault>
    ensures { Gives (λ x. (x.0, x.1.now)) result (literal_at tokens.now) }
{
    let (is_negative, magnitude, rest) = match tokens {
        [Token::Number(n), rest @ ..] => (false, *n, rest),
        [Token::Symbol(Symbol::Minus), Token::Number(n), rest @ ..] => (true, *n, rest),
        _ => return Err(SqlFault::Syntax),
    };
    let literal = Literal {
        is_negative,
        magnitude,
    };
    Ok((literal, rest))
}

#[tactic(auto, unfolding(crate::specs::Parts::number_constant_at))]
fn number_constant_at(tokens: &[Token]) -> Result<(Constant, &[Token]), SqlFault>
    ensures { Gives (λ x. (x.0, x.1.now)) result (number_constant_at tokens.now) }
{
    let (literal, rest) = literal_at(tokens)?;
    Ok((Constant::Number(literal), rest))
}

pub struct Constants;

impl Readable for Constants {
    type Item = Constant;

    ghost reads = { constant_at };

    #[tactic(auto, unfolding(crate::specs::Parts::constant_at))]
    fn read(alloc: Global, tokens: &[Token]) -> Result<(Constant, &[Token]), SqlFault> {
        match tokens {
            [Token::Keyword(Keyword::Null), rest @ ..] => Ok((Constant::Null, rest)),
            [Token::Text(text), rest @ ..] => Ok((Constant::Text(text.copy(alloc)?), rest)),
            [Token::Keyword(Keyword::Date), Token::Text(text), rest @ ..] => {
                Ok((Constant::Date(text.copy(alloc)?), rest))
            }
            _ => number_constant_at(tokens),
        }
    }
}
