//! Tokens as statements.
ghost use Rattle.std.specs.Prelude.{◌≡◌, IfOk};
ghost use Rattle.cq_sql_language.specs.Sentence.{IsStatement};
ghost use Rattle.cq_sql_language.specs.declared.statement.Statement.{Statement};
ghost use Rattle.cq_sql_expressions.specs.declared.fault.SqlFault.TheVariants.{LimitExceeded, Syntax};
ghost use Rattle.cq_sql_expressions.specs.Gives.{Gives};
ghost use Rattle.cq_sql.specs.Grammar.{create_at, drop_at, statement_at, whole_statement};

use crate::query::select_at;
use crate::table::{create_table_at, drop_table_at};
use crate::update::{copy_at, delete_at, insert_at, merge_at, move_at, update_at};
use crate::view::{create_view_at, drop_view_at, refresh_at};
use cq_sql_expressions::SqlFault;
use cq_sql_language::{Keyword, Statement, Token};
use std::alloc::Global;

fn create_at(alloc: Global, tokens: &[Token]) -> Result<(Statement, &[Token]), SqlFault>
    ensures { Gives (λ x. (x.0, x.1.now)) result (create_at tokens.now) }
{
    match tokens {
        [Token::Keyword(Keyword::Table), rest @ ..] => create_table_at(alloc, rest),
        [Token::Keyword(Keyword::View), rest @ ..] => create_view_at(alloc, rest),
        _ => Err(SqlFault::Syntax),
    }
}

fn drop_at(alloc: Global, tokens: &[Token]) -> Result<(Statement, &[Token]), SqlFault>
    ensures { Gives (λ x. (x.0, x.1.now)) result (drop_at tokens.now) }
{
    match tokens {
        [Token::Keyword(Keyword::Table), rest @ ..] => drop_table_at(alloc, rest),
        [Token::Keyword(Keyword::View), rest @ ..] => drop_view_at(alloc, rest),
        _ => Err(SqlFault::Syntax),
    }
}

#[tactic(auto, unfolding(crate::specs::Grammar::statement_at))]
fn statement_at(alloc: Global, tokens: &[Token]) -> Result<(Statement, &[Token]), SqlFault>
    ensures { Gives (λ x. (x.0, x.1.now)) result (statement_at tokens.now) }
{
    match tokens {
        [Token::Keyword(Keyword::Create), rest @ ..] => create_at(alloc, rest),
        [Token::Keyword(Keyword::Drop), rest @ ..] => drop_at(alloc, rest),
        [Token::Keyword(Keyword::Insert), rest @ ..] => insert_at(alloc, rest),
        [Token::Keyword(Keyword::Copy), rest @ ..] => copy_at(alloc, rest),
        [Token::Keyword(Keyword::Delete), rest @ ..] => delete_at(alloc, rest),
        [Token::Keyword(Keyword::Update), rest @ ..] => update_at(alloc, rest),
        [Token::Keyword(Keyword::Select), ..] => select_at(alloc, tokens),
        [Token::Keyword(Keyword::Move), rest @ ..] => move_at(alloc, rest),
        [Token::Keyword(Keyword::Merge), rest @ ..] => merge_at(alloc, rest),
        [Token::Keyword(Keyword::Refresh), rest @ ..] => refresh_at(alloc, rest),
        _ => Err(SqlFault::Syntax),
    }
}

#[tactic(auto, unfolding(crate::specs::Grammar::whole_statement))]
fn whole_statement(alloc: Global, tokens: &[Token]) -> Result<Statement, SqlFault>
    ensures { Gives (λ x. x) result (whole_statement tokens.now) }
{
    let (statement, rest) = statement_at(alloc, tokens)?;
    if rest.is_empty() {
        Ok(statement)
    } else {
        drop(statement);
        Err(SqlFault::Syntax)
    }
}

/// The tree of a list of tokens, all of them. Its texts are copies.
pub fn tree_of(alloc: Global, tokens: &[Token]) -> Result<Statement, SqlFault>
    ensures tree { IfOk result (λ s. IsStatement s tokens.now) }
    ensures no_tree { result ≡ Err Syntax → (s : Statement) → IsStatement s tokens.now → ⊥ }
    ensures within { result ≡ Err LimitExceeded → ⊥ }
{
    whole_statement(alloc, tokens)
}
