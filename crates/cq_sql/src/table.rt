//! The columns of a table, and the order that its rows are kept in.
ghost use Rattle.std.specs.Prelude.{◌≡◌};
ghost use Rattle.cq_sql_expressions.specs.Gives.{Gives};
ghost use Rattle.cq_sql.specs.Grammar.{create_table_at, drop_table_at};
ghost use Rattle.cq_sql.specs.Parts.{column_at, not_null_at, type_at, type_of};

use crate::names::Names;
use cq_sql_expressions::{
    Lead, Readable, SqlFault, after_keyword, expect_keyword, expect_symbol, list_behind, list_of,
};
use cq_sql_language::{Keyword, Statement, Symbol, Token};
use cq_values::{ColumnDef, Ty};
use std::alloc::Global;

fn type_of(word: Keyword) -> Option<Ty>
    ensures { result ≡ type_of word }
{
    match word {
        Keyword::Integer => Some(Ty::Integer),
        Keyword::Text => Some(Ty::Text),
        Keyword::Date => Some(Ty::Date),
        _ => None,
    }
}

fn type_at(tokens: &[Token]) -> Result<(Ty, &[Token]), SqlFault>
    ensures { Gives (λ x. (x.0, x.1.now)) result (type_at tokens.now) }
{
    match tokens {
        [Token::Keyword(word), rest @ ..] => {
            let ty = type_of(*word).ok_or(SqlFault::Syntax)?;
            Ok((ty, rest))
        }
        _ => Err(SqlFault::Syntax),
    }
}

#[tactic(auto, unfolding(cq_sql_expressions::specs::Lists::tail_or))]
fn not_null_at(tokens: &[Token]) -> Result<(bool, &[Token]), SqlFault>
    ensures { Gives (λ x. (x.0, x.1.now)) result (not_null_at tokens.now) }
{
    match after_keyword(Keyword::Not, tokens) {
        Some(rest) => {
            let rest = expect_keyword(Keyword::Null, rest)?;
            Ok((true, rest))
        }
        None => Ok((false, tokens)),
    }
}

pub struct Columns;

impl Readable for Columns {
    type Item = ColumnDef;

    ghost reads = { column_at };

    #[tactic(auto, unfolding(crate::specs::Parts::column_at))]
    fn read(alloc: Global, tokens: &[Token]) -> Result<(ColumnDef, &[Token]), SqlFault> {
        let (name, rest) = Names::read(alloc, tokens)?;
        let (ty, rest) = type_at(rest)?;
        let (not_null, rest) = not_null_at(rest)?;
        let column = ColumnDef { name, ty, not_null };
        Ok((column, rest))
    }
}

/// What follows CREATE TABLE.
#[tactic(auto, unfolding(crate::specs::Grammar::create_table_at))]
pub fn create_table_at(alloc: Global, tokens: &[Token]) -> Result<(Statement, &[Token]), SqlFault>
    ensures { Gives (λ x. (x.0, x.1.now)) result (create_table_at tokens.now) }
{
    let (name, rest) = Names::read(alloc, tokens)?;
    let rest = expect_symbol(Symbol::Open, rest)?;
    let (columns, rest) = list_of::<Columns>(alloc, Lead::Comma, rest)?;
    let rest = expect_symbol(Symbol::Close, rest)?;
    let (sort, rest) = list_behind::<Names>(alloc, Keyword::Sort, rest)?;
    let statement = Statement::CreateTable {
        name,
        columns,
        sort,
    };
    Ok((statement, rest))
}

/// What follows DROP TABLE.
#[tactic(auto, unfolding(crate::specs::Grammar::drop_table_at))]
pub fn drop_table_at(alloc: Global, tokens: &[Token]) -> Result<(Statement, &[Token]), SqlFault>
    ensures { Gives (λ x. (x.0, x.1.now)) result (drop_table_at tokens.now) }
{
    let (name, rest) = Names::read(alloc, tokens)?;
    Ok((Statement::DropTable(name), rest))
}
