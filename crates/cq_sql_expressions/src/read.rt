//! What stands at the front of tokens, and the tokens behind it.
//!
//! A reader takes the tokens, and answers what it read and the tokens behind it, which go to the next one. What reads
//! one kind of thing is a [`Readable`]; lists and clauses of any kind are read by the functions here. No reader goes
//! back over what it took, and what was read is let go where a later reader fails.
ghost use Rattle.std.specs.Prelude.{◌≡◌, List, Option};
ghost use Rattle.std.specs.Option.{option_map};
ghost use Rattle.cq_sql_language.specs.declared.token.Token.{Token};
ghost use Rattle.cq_sql_expressions.specs.Gives.{Gives};
ghost use Rattle.cq_sql_expressions.specs.Lists.{list_at, list_behind, more_at, tail_at};
ghost use Rattle.cq_sql_expressions.specs.Read.{after_keyword, after_symbol};

use crate::fault::SqlFault;
use crate::leads::{Lead, after_lead};
use cq_sql_language::{Keyword, Symbol, Token};
use cq_values::Seq;
use std::alloc::Global;

/// A kind of thing that tokens spell.
pub trait Readable {
    type Item: Drop;

    ghost reads: { List Token → Option (Self.Item × List Token) };

    /// Reads one from the front, and answers the tokens behind it.
    fn read(alloc: Global, tokens: &[Token]) -> Result<(Self::Item, &[Token]), SqlFault>
        ensures { Gives (λ x. (x.0, x.1.now)) result (reads tokens.now) };
}

/// The tokens behind this keyword, if it is there.
pub fn after_keyword(keyword: Keyword, tokens: &[Token]) -> Option<&[Token]>
    ensures { option_map (λ x. x.now) result ≡ after_keyword keyword tokens.now }
{
    match tokens {
        [Token::Keyword(first), rest @ ..] if *first == keyword => Some(rest),
        _ => None,
    }
}

/// The tokens behind this symbol, if it is there.
pub fn after_symbol(symbol: Symbol, tokens: &[Token]) -> Option<&[Token]>
    ensures { option_map (λ x. x.now) result ≡ after_symbol symbol tokens.now }
{
    match tokens {
        [Token::Symbol(first), rest @ ..] if *first == symbol => Some(rest),
        _ => None,
    }
}

/// The tokens behind this keyword, which has to be there.
pub fn expect_keyword(keyword: Keyword, tokens: &[Token]) -> Result<&[Token], SqlFault>
    ensures { Gives (λ x. x.now) result (after_keyword keyword tokens.now) }
{
    after_keyword(keyword, tokens).ok_or(SqlFault::Syntax)
}

/// The tokens behind this symbol, which has to be there.
pub fn expect_symbol(symbol: Symbol, tokens: &[Token]) -> Result<&[Token], SqlFault>
    ensures { Gives (λ x. x.now) result (after_symbol symbol tokens.now) }
{
    after_symbol(symbol, tokens).ok_or(SqlFault::Syntax)
}

/// More entries, each behind its lead, as far as one follows. They come behind those that were read before.
#[tactic(auto, unfolding(crate::specs::Lists::more_at))]
pub fn more_of<T: Readable>(
    alloc: Global,
    lead: Lead,
    before: Seq<T::Item>,
    tokens: &[Token],
) -> Result<(Seq<T::Item>, &[Token]), SqlFault>
    ensures { Gives (λ x. (x.0, x.1.now)) result (more_at lead T.reads before tokens.now) }
{
    let (mut items, mut rest) = (before, tokens);
    for _ in 0..tokens.len() {
        match after_lead(lead, rest) {
            Some(after) => {
                let (item, next) = T::read(alloc, after)?;
                items.push(item)?;
                rest = next;
            }
            None => return Ok((items, rest)),
        }
    }
    Ok((items, rest))
}

/// At least one, and each later one behind its lead.
#[tactic(auto, unfolding(crate::specs::Lists::list_at))]
pub fn list_of<T: Readable>(
    alloc: Global,
    lead: Lead,
    tokens: &[Token],
) -> Result<(Seq<T::Item>, &[Token]), SqlFault>
    ensures { Gives (λ x. (x.0, x.1.now)) result (list_at lead T.reads tokens.now) }
{
    let (first, rest) = T::read(alloc, tokens)?;
    let mut items = Seq::new(alloc);
    items.push(first)?;
    more_of::<T>(alloc, lead, items, rest)
}

/// The list behind a keyword and BY, or an empty one where the keyword is not there.
#[tactic(auto, unfolding(crate::specs::Lists::list_behind, crate::specs::Lists::tail_or))]
pub fn list_behind<T: Readable>(
    alloc: Global,
    first: Keyword,
    tokens: &[Token],
) -> Result<(Seq<T::Item>, &[Token]), SqlFault>
    ensures { Gives (λ x. (x.0, x.1.now)) result (list_behind first T.reads tokens.now) }
{
    match after_keyword(first, tokens) {
        Some(rest) => {
            let rest = expect_keyword(Keyword::By, rest)?;
            list_of::<T>(alloc, Lead::Comma, rest)
        }
        None => Ok((Seq::new(alloc), tokens)),
    }
}

/// One behind its keyword, or none where the keyword is not there.
#[tactic(auto, unfolding(crate::specs::Lists::tail_at))]
pub fn tail_of<T: Readable>(
    alloc: Global,
    first: Keyword,
    tokens: &[Token],
) -> Result<(Option<T::Item>, &[Token]), SqlFault>
    ensures { Gives (λ x. (x.0, x.1.now)) result (tail_at first T.reads tokens.now) }
{
    match after_keyword(first, tokens) {
        Some(rest) => {
            let (item, rest) = T::read(alloc, rest)?;
            Ok((Some(item), rest))
        }
        None => Ok((None, tokens)),
    }
}
