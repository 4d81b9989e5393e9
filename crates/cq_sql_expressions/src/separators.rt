//! What stands between the parts of a chain.
ghost use Rattle.std.specs.Prelude.{◌≡◌};
ghost use Rattle.std.specs.Option.{option_map};
ghost use Rattle.cq_sql_expressions.specs.Chains.{after_separator, sign_at};

use crate::read::{after_keyword, after_symbol};
use cq_sql_language::{Keyword, Sign, Symbol, Token};

/// What makes one value of a chain of parts.
#[derive(Clone, Copy, Debug, PartialEq, Eq)]
pub enum Operator {
    Or,
    And,
    Times,
}

/// What stands between the parts of a chain, or between the entries of a list.
#[derive(Clone, Copy, Debug, PartialEq, Eq)]
pub enum Separator {
    Operator(Operator),
    Comma,
}

/// The tokens behind the separator, where it stands in front.
pub fn after_separator(separator: Separator, tokens: &[Token]) -> Option<&[Token]>
    ensures { option_map (λ x. x.now) result ≡ after_separator separator tokens.now }
{
    match separator {
        Separator::Operator(Operator::Or) => after_keyword(Keyword::Or, tokens),
        Separator::Operator(Operator::And) => after_keyword(Keyword::And, tokens),
        Separator::Operator(Operator::Times) => after_symbol(Symbol::Star, tokens),
        Separator::Comma => after_symbol(Symbol::Comma, tokens),
    }
}

/// The sign in front of a later term of a sum, and the tokens behind it.
pub fn sign_at(tokens: &[Token]) -> Option<(Sign, &[Token])>
    ensures { option_map (λ x. (x.0, x.1.now)) result ≡ sign_at tokens.now }
{
    match tokens {
        [Token::Symbol(Symbol::Plus), rest @ ..] => Some((Sign::Plus, rest)),
        [Token::Symbol(Symbol::Minus), rest @ ..] => Some((Sign::Minus, rest)),
        _ => None,
    }
}
