//! The statements on views.
ghost use Rattle.std.specs.Prelude.{◌≡◌};
ghost use Rattle.cq_sql_expressions.specs.Gives.{Gives};
ghost use Rattle.cq_sql.specs.Grammar.{create_view_at, drop_view_at, refresh_at};

use crate::names::{Names, Numbers};
use crate::query::Queries;
use cq_sql_expressions::{Readable, SqlFault, expect_keyword};
use cq_sql_language::{Keyword, Statement, Token};
use std::alloc::Global;

/// What follows CREATE VIEW.
#[tactic(auto, unfolding(crate::specs::Grammar::create_view_at))]
pub fn create_view_at(alloc: Global, tokens: &[Token]) -> Result<(Statement, &[Token]), SqlFault>
    ensures { Gives (λ x. (x.0, x.1.now)) result (create_view_at tokens.now) }
{
    let (name, rest) = Names::read(alloc, tokens)?;
    let rest = expect_keyword(Keyword::As, rest)?;
    let (query, rest) = Queries::read(alloc, rest)?;
    Ok((Statement::CreateView { name, query }, rest))
}

/// What follows DROP VIEW.
#[tactic(auto, unfolding(crate::specs::Grammar::drop_view_at))]
pub fn drop_view_at(alloc: Global, tokens: &[Token]) -> Result<(Statement, &[Token]), SqlFault>
    ensures { Gives (λ x. (x.0, x.1.now)) result (drop_view_at tokens.now) }
{
    let (name, rest) = Names::read(alloc, tokens)?;
    Ok((Statement::DropView(name), rest))
}

/// What follows REFRESH.
#[tactic(auto, unfolding(crate::specs::Grammar::refresh_at))]
pub fn refresh_at(alloc: Global, tokens: &[Token]) -> Result<(Statement, &[Token]), SqlFault>
    ensures { Gives (λ x. (x.0, x.1.now)) result (refresh_at tokens.now) }
{
    let (view, rest) = Names::read(alloc, tokens)?;
    let (changes, rest) = Numbers::read(alloc, rest)?;
    Ok((Statement::Refresh { view, changes }, rest))
}
