//! Symbols.
ghost use Rattle.cq_sql_tokens.specs.Lexing.{Gives, sign_at, symbol_at};
ghost use Rattle.std.specs.Prelude.{◌≡◌};

use crate::fault::TokenFault;
use cq_sql_language::{Symbol, Token};

/// The symbol that a text begins with, as long as it can be, and its length.
#[tactic(auto, unfolding(crate::specs::Lexing::symbol_at))]
fn symbol_at(bytes: &[u8]) -> Option<(Symbol, usize)>
    ensures { result ≡ symbol_at bytes.now }
{
    match bytes {
        [b'(', ..] => Some((Symbol::Open, 1)),
        [b')', ..] => Some((Symbol::Close, 1)),
        [b',', ..] => Some((Symbol::Comma, 1)),
        [b'.', ..] => Some((Symbol::Dot, 1)),
        [b'=', ..] => Some((Symbol::Equal, 1)),
        [b'<', b'>', ..] => Some((Symbol::NotEqual, 2)),
        [b'<', b'=', ..] => Some((Symbol::LessOrEqual, 2)),
        [b'<', ..] => Some((Symbol::Less, 1)),
        [b'>', b'=', ..] => Some((Symbol::GreaterOrEqual, 2)),
        [b'>', ..] => Some((Symbol::Greater, 1)),
        [b'+', ..] => Some((Symbol::Plus, 1)),
        [b'-', ..] => Some((Symbol::Minus, 1)),
        [b'*', ..] => Some((Symbol::Star, 1)),
        _ => None,
    }
}

/// The symbol in front of a text as a token, and what follows it.
pub fn sign_at(text: &str) -> Result<(Token, &str), TokenFault>
    ensures { Gives (λ x. (x.0, x.1.now)) result (sign_at text.now) }
{
    let Some((symbol, len)) = symbol_at(text.as_bytes()) else {
        return Err(TokenFault::Syntax);
    };
    Ok((Token::Symbol(symbol), &text[len..]))
}
