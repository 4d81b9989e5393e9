//! The sources that are joined, and the equalities that they are joined by.
ghost use Rattle.std.specs.Prelude.{◌≡◌};
ghost use Rattle.cq_sql_expressions.specs.Gives.{Gives};
ghost use Rattle.cq_sql.specs.Queries.{equality_at, joined_source_at, joins_at};

use crate::names::ColumnNames;
use crate::source::FromSources;
use cq_sql_expressions::{
    Lead, Readable, SqlFault, expect_keyword, expect_symbol, list_of, more_of,
};
use cq_sql_language::{JoinedSource, Keyword, OnEquality, Symbol, Token};
use cq_values::Seq;
use std::alloc::Global;

struct Equalities;

impl Readable for Equalities {
    type Item = OnEquality;

    ghost reads = { equality_at };

    #[tactic(auto, unfolding(crate::specs::Queries::equality_at))]
    fn read(alloc: Global, tokens: &[Token]) -> Result<(OnEquality, &[Token]), SqlFault> {
        let (left, rest) = ColumnNames::read(alloc, tokens)?;
        let rest = expect_symbol(Symbol::Equal, rest)?;
        let (right, rest) = ColumnNames::read(alloc, rest)?;
        Ok((OnEquality { left, right }, rest))
    }
}

/// What follows JOIN.
struct JoinedSources;

impl Readable for JoinedSources {
    type Item = JoinedSource;

    ghost reads = { joined_source_at };

    #[tactic(auto, unfolding(crate::specs::Queries::joined_source_at))]
    fn read(alloc: Global, tokens: &[Token]) -> Result<(JoinedSource, &[Token]), SqlFault> {
        let (source, rest) = FromSources::read(alloc, tokens)?;
        let rest = expect_keyword(Keyword::On, rest)?;
        let (on, rest) = list_of::<Equalities>(alloc, Lead::And, rest)?;
        Ok((JoinedSource { source, on }, rest))
    }
}

/// Each source that is joined, as far as a JOIN follows.
#[tactic(auto, unfolding(crate::specs::Queries::joins_at))]
pub fn joins_at(alloc: Global, tokens: &[Token]) -> Result<(Seq<JoinedSource>, &[Token]), SqlFault>
    ensures { Gives (λ x. (x.0, x.1.now)) result (joins_at tokens.now) }
{
    more_of::<JoinedSources>(alloc, Lead::Join, Seq::new(alloc), tokens)
}
