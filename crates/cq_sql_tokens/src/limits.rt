//! The limits of the reader.
ghost use Rattle.cq_sql_language.specs.Tokens.{opens, closes, is_long_name, is_past_limits};
ghost use Rattle.std.specs.Prelude.{◌≡◌, IsTrue, false};

use cq_sql_language::{Symbol, Token};

const MAX_NAME_LEN: usize = 63;

const MAX_OPEN: u64 = 64;

fn opens(token: &Token) -> u64
    ensures { result ≡ opens token.now }
{
    match token {
        Token::Symbol(Symbol::Open) => 1,
        _ => 0,
    }
}

fn closes(token: &Token) -> u64
    ensures { result ≡ closes token.now }
{
    match token {
        Token::Symbol(Symbol::Close) => 1,
        _ => 0,
    }
}

fn is_long_name(token: &Token) -> bool
    ensures { result ≡ is_long_name token.now }
{
    match token {
        Token::Name(name) => MAX_NAME_LEN < name.as_str().len(),
        _ => false,
    }
}

/// Whether a token is a number or a comma, which count for no limit.
fn is_free(token: &Token) -> bool
    ensures opens { IsTrue result → opens token.now ≡ 0 }
    ensures closes { IsTrue result → closes token.now ≡ 0 }
    ensures name { IsTrue result → is_long_name token.now ≡ false }
{
    match token {
        Token::Number(_) | Token::Symbol(Symbol::Comma) => true,
        _ => false,
    }
}

/// Whether a name has more than 63 bytes, or more than 64 parentheses are open at once.
#[tactic(auto, unfolding(cq_sql_language::specs::Tokens::is_past_limits))]
pub fn is_past_limits(tokens: &[Token]) -> bool
    ensures { result ≡ is_past_limits tokens.now }
{
    let mut opened = 0u64;
    let mut closed = 0u64;
    for token in tokens {
        if is_free(token) {
            continue;
        }
        opened += opens(token);
        closed += closes(token);
        if is_long_name(token) || closed + MAX_OPEN < opened {
            return true;
        }
    }
    false
}
