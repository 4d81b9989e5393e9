//! What stands in front of each later entry of a list.
//!
//! Whoever reads a list names its [`Lead`]; [`after_lead`] looks for it at the front of the tokens, once before each
//! entry. It looks at two tokens at most.
ghost use Rattle.std.specs.Prelude.{◌≡◌};
ghost use Rattle.std.specs.Option.{option_map};
ghost use Rattle.cq_sql_expressions.specs.Lists.{after_join, after_lead};

use crate::read::{after_keyword, after_symbol};
use cq_sql_language::{Keyword, Symbol, Token};

/// What stands in front of each later entry of a list.
#[derive(Clone, Copy, Debug, PartialEq, Eq)]
pub enum Lead {
    Comma,
    And,
    Join,
}

/// The tokens behind JOIN or INNER JOIN, if it is there.
fn after_join(tokens: &[Token]) -> Option<&[Token]>
    ensures { option_map (λ x. x.now) result ≡ after_join tokens.now }
{
    match tokens {
        [Token::Keyword(Keyword::Join), rest @ ..] => Some(rest),
        [
            Token::Keyword(Keyword::Inner),
            Token::Keyword(Keyword::Join),
            rest @ ..,
        ] => Some(rest),
        _ => None,
    }
}

/// The tokens behind the lead, if it is there.
pub fn after_lead(lead: Lead, tokens: &[Token]) -> Option<&[Token]>
    ensures { option_map (λ x. x.now) result ≡ after_lead lead tokens.now }
{
    match lead {
        Lead::Comma => after_symbol(Symbol::Comma, tokens),
        Lead::And => after_keyword(Keyword::And, tokens),
        Lead::Join => after_join(tokens),
    }
}
