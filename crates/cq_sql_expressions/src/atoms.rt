//! Expressions that have no parts, and what opens a pair of parentheses.
ghost use Rattle.std.specs.Prelude.{◌≡◌};
ghost use Rattle.std.specs.Option.{option_map};
ghost use Rattle.cq_sql_language.specs.Written.{written};
ghost use Rattle.cq_sql_expressions.specs.Atoms.{aggregate_at, atom_at, called_at, count_at, day_part_of, extract_at, opening_at, text_at};
ghost use Rattle.cq_sql_expressions.specs.Gives.{Gives};

use crate::fault::SqlFault;
use cq_sql_language::{AggregateFunction, ColumnName, ExprNode, Keyword, Symbol, Token};
use cq_values::{DayPart, Text};
use std::alloc::Global;

/// What opens a pair of parentheses.
#[derive(Clone, Copy, Debug, PartialEq, Eq)]
pub enum Opening {
    Parens,
    Extract(DayPart),
    Aggregate(AggregateFunction),
}

/// A text in quotes, and the tokens behind it.
pub fn text_at(alloc: Global, tokens: &[Token]) -> Result<(Text, &[Token]), SqlFault>
    ensures { Gives (λ x. (x.0, x.1.now)) result (text_at tokens.now) }
{
    match tokens {
        [Token::Text(text), rest @ ..] => Ok((text.copy(alloc)?, rest)),
        _ => Err(SqlFault::Syntax),
    }
}

/// An expression that has no parts, and the tokens behind it.
pub fn atom_at(alloc: Global, tokens: &[Token]) -> Result<(ExprNode, &[Token]), SqlFault>
    ensures { Gives (λ x. (written x.0, x.1.now)) result (atom_at tokens.now) }
{
    match tokens {
        [Token::Number(n), rest @ ..] => Ok((ExprNode::Number(*n), rest)),
        [Token::Text(text), rest @ ..] => Ok((ExprNode::Text(text.copy(alloc)?), rest)),
        [Token::Keyword(Keyword::Date), Token::Text(text), rest @ ..] => {
            Ok((ExprNode::Date(text.copy(alloc)?), rest))
        }
        [Token::Keyword(Keyword::Null), rest @ ..] => Ok((ExprNode::Null, rest)),
        [
            Token::Name(source),
            Token::Symbol(Symbol::Dot),
            Token::Name(name),
            rest @ ..,
        ] => {
            let column = ColumnName {
                source: Some(source.copy(alloc)?),
                name: name.copy(alloc)?,
            };
            Ok((ExprNode::Column(column), rest))
        }
        [Token::Name(name), rest @ ..] => {
            let column = ColumnName {
                source: None,
                name: name.copy(alloc)?,
            };
            Ok((ExprNode::Column(column), rest))
        }
        [
            Token::Keyword(Keyword::Count),
            Token::Symbol(Symbol::Open),
            Token::Symbol(Symbol::Star),
            Token::Symbol(Symbol::Close),
            rest @ ..,
        ] => Ok((ExprNode::CountAll, rest)),
        _ => Err(SqlFault::Syntax),
    }
}

fn day_part_of(word: Keyword) -> Option<DayPart>
    ensures { result ≡ day_part_of word }
{
    match word {
        Keyword::Year => Some(DayPart::Year),
        Keyword::Month => Some(DayPart::Month),
        Keyword::Day => Some(DayPart::Day),
        _ => None,
    }
}

fn extract_at(tokens: &[Token]) -> Option<(Opening, &[Token])>
    ensures { option_map (λ x. (x.0, x.1.now)) result ≡ extract_at tokens.now }
{
    match tokens {
        [
            Token::Symbol(Symbol::Open),
            Token::Keyword(word),
            Token::Keyword(Keyword::From),
            rest @ ..,
        ] => Some((Opening::Extract(day_part_of(*word)?), rest)),
        _ => None,
    }
}

fn aggregate_at(function: AggregateFunction, tokens: &[Token]) -> Option<(Opening, &[Token])>
    ensures { option_map (λ x. (x.0, x.1.now)) result ≡ aggregate_at function tokens.now }
{
    match tokens {
        [Token::Symbol(Symbol::Open), Token::Symbol(Symbol::Star), ..] => None,
        [Token::Symbol(Symbol::Open), rest @ ..] => Some((Opening::Aggregate(function), rest)),
        _ => None,
    }
}

/// What opens a pair of parentheses behind COUNT, with DISTINCT or without.
fn count_at(tokens: &[Token]) -> Option<(Opening, &[Token])>
    ensures { option_map (λ x. (x.0, x.1.now)) result ≡ count_at tokens.now }
{
    match tokens {
        [
            Token::Symbol(Symbol::Open),
            Token::Keyword(Keyword::Distinct),
            rest @ ..,
        ] => Some((Opening::Aggregate(AggregateFunction::CountDistinct), rest)),
        _ => aggregate_at(AggregateFunction::Count, tokens),
    }
}

/// What opens a pair of parentheses behind this word.
fn called_at(word: Keyword, tokens: &[Token]) -> Option<(Opening, &[Token])>
    ensures { option_map (λ x. (x.0, x.1.now)) result ≡ called_at word tokens.now }
{
    match word {
        Keyword::Extract => extract_at(tokens),
        Keyword::Count => count_at(tokens),
        Keyword::Sum => aggregate_at(AggregateFunction::Sum, tokens),
        Keyword::Min => aggregate_at(AggregateFunction::Min, tokens),
        Keyword::Max => aggregate_at(AggregateFunction::Max, tokens),
        _ => None,
    }
}

/// What opens a pair of parentheses in front, and the tokens behind it.
pub fn opening_at(tokens: &[Token]) -> Option<(Opening, &[Token])>
    ensures { option_map (λ x. (x.0, x.1.now)) result ≡ opening_at tokens.now }
{
    match tokens {
        [Token::Symbol(Symbol::Open), rest @ ..] => Some((Opening::Parens, rest)),
        [Token::Keyword(word), rest @ ..] => called_at(*word, rest),
        _ => None,
    }
}
