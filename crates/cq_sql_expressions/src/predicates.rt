//! The tests of a value: which one it is, by the words in front of it.
ghost use Rattle.std.specs.Prelude.{◌≡◌};
ghost use Rattle.std.specs.Option.{option_map};
ghost use Rattle.cq_sql_expressions.specs.Predicates.{comparison_of, test_at, worded};

use cq_sql_language::{Keyword, Symbol, Token};
use cq_values::Comparison;

/// What a test asks. The `bool` tells whether NOT stands in it.
#[derive(Clone, Copy, Debug, PartialEq, Eq)]
pub enum Test {
    Compare(Comparison),
    IsNull(bool),
    Between(bool),
    In(bool),
    Like(bool),
}

/// The comparison that the symbol stands for, if it is one.
fn comparison_of(symbol: Symbol) -> Option<Comparison>
    ensures { result ≡ comparison_of symbol }
{
    match symbol {
        Symbol::Equal => Some(Comparison::Equal),
        Symbol::NotEqual => Some(Comparison::NotEqual),
        Symbol::Less => Some(Comparison::Less),
        Symbol::LessOrEqual => Some(Comparison::LessOrEqual),
        Symbol::Greater => Some(Comparison::Greater),
        Symbol::GreaterOrEqual => Some(Comparison::GreaterOrEqual),
        _ => None,
    }
}

fn worded(negated: bool, word: Keyword) -> Option<Test>
    ensures { result ≡ worded negated word }
{
    match word {
        Keyword::Between => Some(Test::Between(negated)),
        Keyword::In => Some(Test::In(negated)),
        Keyword::Like => Some(Test::Like(negated)),
        _ => None,
    }
}

/// The test that the first words begin, and the tokens behind them.
pub fn test_at(tokens: &[Token]) -> Option<(Test, &[Token])>
    ensures { option_map (λ x. (x.0, x.1.now)) result ≡ test_at tokens.now }
{
    match tokens {
        [Token::Symbol(symbol), rest @ ..] => Some((Test::Compare(comparison_of(*symbol)?), rest)),
        [
            Token::Keyword(Keyword::Is),
            Token::Keyword(Keyword::Null),
            rest @ ..,
        ] => { Some((Test::IsNull(false), rest)) }
        [
            Token::Keyword(Keyword::Is),
            Token::Keyword(Keyword::Not),
            Token::Keyword(Keyword::Null),
            rest @ ..,
        ] => Some((Test::IsNull(true), rest)),
        [
            Token::Keyword(Keyword::Not),
            Token::Keyword(word),
            rest @ ..,
        ] => { Some((worded(true, *word)?, rest)) }
        [Token::Keyword(word), rest @ ..] => Some((worded(false, *word)?, rest)),
        _ => None,
    }
}
