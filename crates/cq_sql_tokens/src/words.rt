//! Words as keywords and names, and digits as numbers.
ghost use Rattle.cq_sql_language.specs.Characters.{is_digit};
ghost use Rattle.cq_sql_language.specs.Tokens.{decimal, word_token};
ghost use Rattle.cq_sql_language.specs.declared.token.Token.TheVariants as tokens;
ghost use Rattle.cq_sql_tokens.specs.Lexing.{Gives, gap_at, number_at, token_at, word_at};
ghost use Rattle.cq_sql_tokens.specs.Runs.{IsNumberAt};
ghost use Rattle.std.specs.List.{list_all};
ghost use Rattle.std.specs.Prelude.{◌-◌, ◌^◌, ◌≡◌, ◌≤◌, IfOk, IfSome, IsTrue, None, Some, length, min};

use crate::characters::{begins_digit, begins_word_byte, digit_value, digits_len, word_len};
use crate::fault::TokenFault;
use crate::keywords::keyword_of;
use cq_sql_language::Token;
use cq_values::Text;
use std::alloc::{AllocError, Global};

/// So many digits spell a number of up to 64 bits, whatever they are.
const FEW: usize = 16;

/// A keyword takes no memory.
fn word_token(alloc: Global, word: &str) -> Result<Token, AllocError>
    ensures { IfOk result (λ t. t ≡ word_token word.now) }
{
    if let Some(keyword) = keyword_of(word) {
        return Ok(Token::Keyword(keyword));
    }
    let mut name = String::from_str(alloc, word)?;
    name.make_ascii_lowercase();
    Ok(Token::Name(Text::from_string(name)))
}

/// The longest word in front of a text, and what follows it.
pub fn word_at(alloc: Global, text: &str) -> Result<(Token, &str), TokenFault>
    ensures { Gives (λ x. (x.0, x.1.now)) result (word_at text.now) }
{
    let (word, rest) = text.split_at(word_len(text.as_bytes()));
    Ok((word_token(alloc, word)?, rest))
}

/// The number that digits spell, or the greatest of its type.
fn number_of(digits: &[u8]) -> u128
    requires { IsTrue (list_all is_digit digits.now) }
    ensures { result ≡ min (decimal digits.now) (2 ^ 128 - 1) }
{
    let mut number = 0u128;
    for b in digits {
        number = number
            .saturating_mul(10)
            .saturating_add(u128::from(*b - b'0'));
    }
    number
}

/// The number that the digits in front of a few bytes spell, and how many they are.
fn number_within(bytes: &[u8]) -> (u64, usize)
    requires { length bytes.now ≤ 16 }
    ensures { IsNumberAt bytes.now result }
{
    let mut number = 0u64;
    for (i, b) in bytes.iter().enumerate() {
        let Some(value) = digit_value(*b) else {
            return (number, i);
        };
        number = number * 10 + value;
    }
    (number, bytes.len())
}

/// The number that the digits in front spell, and how many they are, where they are few.
fn small_number(bytes: &[u8]) -> Option<(u64, usize)>
    ensures { IfSome result (IsNumberAt bytes.now) }
{
    match bytes.get(..FEW) {
        Some(front) => {
            let (number, len) = number_within(front);
            (len < FEW).then_some((number, len))
        }
        None => Some(number_within(bytes)),
    }
}

/// A number of up to 64 bits in front of a text, where no word goes on behind it, and what follows.
pub fn small_number_at(text: &str) -> Option<(u64, &str)>
    ensures gap { IfSome result (λ r. gap_at text.now ≡ None) }
    ensures token { IfSome result (λ r. token_at text.now ≡ Some (tokens.Number r.0, r.1.now)) }
{
    if !begins_digit(text.as_bytes()) {
        return None;
    }
    let (number, len) = small_number(text.as_bytes())?;
    let after = &text[len..];
    if begins_word_byte(after.as_bytes()) {
        return None;
    }
    Some((number, after))
}

/// The longest number in front of a text, unless a word goes on behind it, and what follows.
#[tactic(auto, unfolding(crate::specs::Lexing::number_at))]
pub fn number_at(text: &str) -> Result<(Token, &str), TokenFault>
    ensures { Gives (λ x. (x.0, x.1.now)) result (number_at text.now) }
{
    let (digits, rest) = text.split_at(digits_len(text.as_bytes()));
    if begins_word_byte(rest.as_bytes()) {
        return Err(TokenFault::Syntax);
    }
    Ok((Token::Number(number_of(digits.as_bytes())), rest))
}
