//! Names, names of columns, numbers without a sign, and texts.
ghost use Rattle.cq_sql.specs.Parts.{column_name_at, name_at, number_at, text_at};

use cq_sql_expressions::{Readable, SqlFault};
use cq_sql_language::{ColumnName, Symbol, Token};
use cq_values::Text;
use std::alloc::Global;

pub struct Names;

impl Readable for Names {
    type Item = Text;

    ghost reads = { name_at };

    fn read(alloc: Global, tokens: &[Token]) -> Result<(Text, &[Token]), SqlFault> {
        match tokens {
            [Token::Name(name), rest @ ..] => Ok((name.copy(alloc)?, rest)),
            _ => Err(SqlFault::Syntax),
        }
    }
}

pub struct Numbers;

impl Readable for Numbers {
    type Item = u128;

    ghost reads = { number_at };

    fn read(_alloc: Global, tokens: &[Token]) -> Result<(u128, &[Token]), SqlFault> {
        match tokens {
            [Token::Number(n), rest @ ..] => Ok((*n, rest)),
            _ => Err(SqlFault::Syntax),
        }
    }
}

pub struct Texts;

impl Readable for Texts {
    type Item = Text;

    ghost reads = { text_at };

    fn read(alloc: Global, tokens: &[Token]) -> Result<(Text, &[Token]), SqlFault> {
        match tokens {
            [Token::Text(text), rest @ ..] => Ok((text.copy(alloc)?, rest)),
            _ => Err(SqlFault::Syntax),
        }
    }
}

pub struct ColumnNames;

impl Readable for ColumnNames {
    type Item = ColumnName;

    ghost reads = { column_name_at };

    fn read(alloc: Global, tokens: &[Token]) -> Result<(ColumnName, &[Token]), SqlFault> {
        let (source, name, rest) = match tokens {
            [
                Token::Name(source),
                Token::Symbol(Symbol::Dot),
                Token::Name(name),
                rest @ ..,
            ] => (Some(source.copy(alloc)?), name, rest),
            [Token::Name(name), rest @ ..] => (None, name, rest),
            _ => return Err(SqlFault::Syntax),
        };
        let name = name.copy(alloc)?;
        Ok((ColumnName { source, name }, rest))
    }
}
