//! Texts as tokens.
ghost use Rattle.cq_sql_language.specs.declared.token.Token.TheVariants as tokens;
ghost use Rattle.cq_sql_tokens.specs.Lexing.{Gives, gap_at, past_space, token_at};
ghost use Rattle.cq_sql_tokens.specs.Reading.{Reads};
ghost use Rattle.std.specs.Option.{option_map};
ghost use Rattle.std.specs.Prelude.{◌≡◌, IfSome, None, Some, drop};

use crate::characters::{is_blank, is_digit, is_letter, line_len};
use crate::fault::TokenFault;
use crate::quotes::quoted_at;
use crate::symbols::sign_at;
use crate::words::{number_at, small_number_at, word_at};
use cq_sql_language::{Symbol, Token};
use cq_values::Seq;
use std::alloc::Global;

/// Room is made for one token in so many bytes. A text with more tokens takes more room as it is read.
const TOKEN_LEN: usize = 3;

/// What follows a blank or a comment in front of a text, if one is there.
#[tactic(auto, unfolding(crate::specs::Lexing::gap_at))]
fn gap_at(text: &str) -> Option<&str>
    ensures { option_map (λ x. x.now) result ≡ gap_at text.now }
{
    match text.as_bytes() {
        [b, ..] if is_blank(*b) => Some(&text[1..]),
        [b'-', b'-', ..] => Some(&text[line_len(text.as_bytes())..]),
        _ => None,
    }
}

/// The token in front of a text, where no blank and no comment is there, and what follows.
#[tactic(auto, unfolding(crate::specs::Lexing::token_at))]
fn token_at(alloc: Global, text: &str) -> Result<(Token, &str), TokenFault>
    ensures { Gives (λ x. (x.0, x.1.now)) result (token_at text.now) }
{
    match text.as_bytes() {
        [b, ..] if is_letter(*b) => word_at(alloc, text),
        [b, ..] if is_digit(*b) => number_at(text),
        [b'\'', ..] => quoted_at(alloc, &text[1..]),
        [_, ..] => sign_at(text),
        [] => Err(TokenFault::Syntax),
    }
}

/// What follows a space in front of a text, or the text where none is there.
fn after_space(text: &str) -> &str
    ensures { result.now ≡ past_space text.now }
{
    match text.as_bytes() {
        [b' ', ..] => &text[1..],
        _ => text,
    }
}

/// A parenthesis or a comma in front of a text, and what follows it and a space behind it.
#[tactic(auto, unfolding(crate::specs::Lexing::gap_at, crate::specs::Lexing::token_at, crate::specs::Lexing::symbol_at))]
fn lone_sign_at(text: &str) -> Option<(Symbol, &str)>
    ensures gap { IfSome result (λ r. gap_at text.now ≡ None) }
    ensures token { IfSome result (λ r. token_at text.now ≡ Some (tokens.Symbol r.0, drop 1 text.now)) }
    ensures rest { IfSome result (λ r. r.1.now ≡ past_space (drop 1 text.now)) }
{
    match text.as_bytes() {
        [b',', ..] => Some((Symbol::Comma, after_space(&text[1..]))),
        [b'(', ..] => Some((Symbol::Open, after_space(&text[1..]))),
        [b')', ..] => Some((Symbol::Close, after_space(&text[1..]))),
        _ => None,
    }
}

/// The tokens of a text: names in lower case, texts without their quotes.
pub fn tokens(alloc: Global, text: &str) -> Result<Seq<Token>, TokenFault>
    ensures { Reads text.now result }
{
    let mut tokens = Seq::from_vec(Vec::with_capacity(alloc, text.len() / TOKEN_LEN + 1)?);
    let mut rest = text;
    while !rest.is_empty() {
        if let Some((number, after)) = small_number_at(rest) {
            tokens.push(Token::Number(u128::from(number)))?;
            rest = after;
            if let Some((symbol, behind)) = lone_sign_at(after) {
                tokens.push(Token::Symbol(symbol))?;
                rest = behind;
            }
        } else if let Some((symbol, after)) = lone_sign_at(rest) {
            tokens.push(Token::Symbol(symbol))?;
            rest = after;
        } else if let Some(after) = gap_at(rest) {
            rest = after;
        } else {
            let (token, after) = token_at(alloc, rest)?;
            tokens.push(token)?;
            rest = after;
        }
    }
    Ok(tokens)
}
