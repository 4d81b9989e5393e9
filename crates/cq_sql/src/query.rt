//! Queries.
ghost use Rattle.std.specs.Prelude.{◌≡◌, Some};
ghost use Rattle.cq_sql_expressions.specs.Gives.{Gives};
ghost use Rattle.cq_sql.specs.Grammar.{select_at};
ghost use Rattle.cq_sql.specs.Queries.{distinct_at, query_at, query_of};

use crate::joins::joins_at;
use crate::later::{LaterClauses, later_at};
use crate::select_item::SelectItems;
use crate::source::FromSources;
use cq_sql_expressions::{Lead, Readable, SqlFault, expect_keyword, list_of};
use cq_sql_language::{FromSource, JoinedSource, Keyword, Select, SelectItem, Statement, Token};
use cq_values::Seq;
use std::alloc::Global;

/// Whether DISTINCT is there, and the tokens behind it.
fn distinct_at(tokens: &[Token]) -> (bool, &[Token])
    ensures { distinct_at tokens.now ≡ Some (result.0, result.1.now) }
{
    match tokens {
        [Token::Keyword(Keyword::Distinct), rest @ ..] => (true, rest),
        _ => (false, tokens),
    }
}

fn query_of(
    is_distinct: bool,
    items: Seq<SelectItem>,
    first: FromSource,
    joins: Seq<JoinedSource>,
    later: LaterClauses,
) -> Select
    ensures { result ≡ query_of is_distinct items first joins later }
{
    let LaterClauses {
        condition,
        group,
        having,
        order,
        limit,
    } = later;
    Select {
        is_distinct,
        items,
        first,
        joins,
        condition,
        group,
        having,
        order,
        limit,
    }
}

pub struct Queries;

impl Readable for Queries {
    type Item = Select;

    ghost reads = { query_at };

    #[tactic(auto, unfolding(crate::specs::Queries::query_at))]
    fn read(alloc: Global, tokens: &[Token]) -> Result<(Select, &[Token]), SqlFault> {
        let rest = expect_keyword(Keyword::Select, tokens)?;
        let (is_distinct, rest) = distinct_at(rest);
        let (items, rest) = list_of::<SelectItems>(alloc, Lead::Comma, rest)?;
        let rest = expect_keyword(Keyword::From, rest)?;
        let (first, rest) = FromSources::read(alloc, rest)?;
        let (joins, rest) = joins_at(alloc, rest)?;
        let (later, rest) = later_at(alloc, rest)?;
        let query = query_of(is_distinct, items, first, joins, later);
        Ok((query, rest))
    }
}

/// A query as a statement.
#[tactic(auto, unfolding(crate::specs::Grammar::select_at))]
pub fn select_at(alloc: Global, tokens: &[Token]) -> Result<(Statement, &[Token]), SqlFault>
    ensures { Gives (λ x. (x.0, x.1.now)) result (select_at tokens.now) }
{
    let (query, rest) = Queries::read(alloc, tokens)?;
    Ok((Statement::Select(query), rest))
}
