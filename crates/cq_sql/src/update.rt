//! The statements that write rows, and those that move them to the read store.
ghost use Rattle.std.specs.Prelude.{◌≡◌};
ghost use Rattle.cq_sql_expressions.specs.Gives.{Gives};
ghost use Rattle.cq_sql.specs.Grammar.{copy_at, delete_at, insert_at, merge_at, move_at, set_clause_at, update_at};

use crate::names::{Names, Numbers, Texts};
use crate::rows::rows_at;
use cq_sql_expressions::{
    Lead, Readable, SqlExpressions, SqlFault, expect_keyword, expect_symbol, list_of, tail_of,
};
use cq_sql_language::{Keyword, SetClause, Statement, Symbol, Token};
use std::alloc::Global;

/// What follows INSERT.
#[tactic(auto, unfolding(crate::specs::Grammar::insert_at))]
pub fn insert_at(alloc: Global, tokens: &[Token]) -> Result<(Statement, &[Token]), SqlFault>
    ensures { Gives (λ x. (x.0, x.1.now)) result (insert_at tokens.now) }
{
    let rest = expect_keyword(Keyword::Into, tokens)?;
    let (table, rest) = Names::read(alloc, rest)?;
    let rest = expect_keyword(Keyword::Values, rest)?;
    let (rows, rest) = rows_at(alloc, rest)?;
    Ok((Statement::Insert { table, rows }, rest))
}

/// What follows COPY.
#[tactic(auto, unfolding(crate::specs::Grammar::copy_at))]
pub fn copy_at(alloc: Global, tokens: &[Token]) -> Result<(Statement, &[Token]), SqlFault>
    ensures { Gives (λ x. (x.0, x.1.now)) result (copy_at tokens.now) }
{
    let (table, rest) = Names::read(alloc, tokens)?;
    let rest = expect_keyword(Keyword::From, rest)?;
    let (file, rest) = Texts::read(alloc, rest)?;
    Ok((Statement::Copy { table, file }, rest))
}

/// What follows DELETE.
#[tactic(auto, unfolding(crate::specs::Grammar::delete_at))]
pub fn delete_at(alloc: Global, tokens: &[Token]) -> Result<(Statement, &[Token]), SqlFault>
    ensures { Gives (λ x. (x.0, x.1.now)) result (delete_at tokens.now) }
{
    let rest = expect_keyword(Keyword::From, tokens)?;
    let (table, rest) = Names::read(alloc, rest)?;
    let (condition, rest) = tail_of::<SqlExpressions>(alloc, Keyword::Where, rest)?;
    Ok((Statement::Delete { table, condition }, rest))
}

struct SetClauses;

impl Readable for SetClauses {
    type Item = SetClause;

    ghost reads = { set_clause_at };

    #[tactic(auto, unfolding(crate::specs::Grammar::set_clause_at))]
    fn read(alloc: Global, tokens: &[Token]) -> Result<(SetClause, &[Token]), SqlFault> {
        let (column, rest) = Names::read(alloc, tokens)?;
        let rest = expect_symbol(Symbol::Equal, rest)?;
        let (value, rest) = SqlExpressions::read(alloc, rest)?;
        Ok((SetClause { column, value }, rest))
    }
}

/// What follows UPDATE.
#[tactic(auto, unfolding(crate::specs::Grammar::update_at))]
pub fn update_at(alloc: Global, tokens: &[Token]) -> Result<(Statement, &[Token]), SqlFault>
    ensures { Gives (λ x. (x.0, x.1.now)) result (update_at tokens.now) }
{
    let (table, rest) = Names::read(alloc, tokens)?;
    let rest = expect_keyword(Keyword::Set, rest)?;
    let (assignments, rest) = list_of::<SetClauses>(alloc, Lead::Comma, rest)?;
    let (condition, rest) = tail_of::<SqlExpressions>(alloc, Keyword::Where, rest)?;
    let statement = Statement::Update {
        table,
        assignments,
        condition,
    };
    Ok((statement, rest))
}

/// What follows MOVE.
#[tactic(auto, unfolding(crate::specs::Grammar::move_at))]
pub fn move_at(alloc: Global, tokens: &[Token]) -> Result<(Statement, &[Token]), SqlFault>
    ensures { Gives (λ x. (x.0, x.1.now)) result (move_at tokens.now) }
{
    let (table, rest) = Names::read(alloc, tokens)?;
    let (rows, rest) = Numbers::read(alloc, rest)?;
    Ok((Statement::Move { table, rows }, rest))
}

/// What follows MERGE.
#[tactic(auto, unfolding(crate::specs::Grammar::merge_at))]
pub fn merge_at(alloc: Global, tokens: &[Token]) -> Result<(Statement, &[Token]), SqlFault>
    ensures { Gives (λ x. (x.0, x.1.now)) result (merge_at tokens.now) }
{
    let (table, rest) = Names::read(alloc, tokens)?;
    Ok((Statement::Merge(table), rest))
}
