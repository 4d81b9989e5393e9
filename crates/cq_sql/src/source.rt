//! What FROM names, and the name that it is known by.
ghost use Rattle.std.specs.Prelude.{◌≡◌};
ghost use Rattle.cq_sql_expressions.specs.Gives.{Gives};
ghost use Rattle.cq_sql.specs.Queries.{known_as_at, source_at};

use crate::names::Names;
use cq_sql_expressions::{Readable, SqlFault, tail_of};
use cq_sql_language::{FromSource, Keyword, Token};
use cq_values::Text;
use std::alloc::Global;

/// The name by which a source is known: AS may stand in front of it, and it may be left out.
#[tactic(auto, unfolding(crate::specs::Queries::known_as_at))]
fn known_as_at(alloc: Global, tokens: &[Token]) -> Result<(Option<Text>, &[Token]), SqlFault>
    ensures { Gives (λ x. (x.0, x.1.now)) result (known_as_at tokens.now) }
{
    match tokens {
        [Token::Name(name), rest @ ..] => Ok((Some(name.copy(alloc)?), rest)),
        _ => tail_of::<Names>(alloc, Keyword::As, tokens),
    }
}

pub struct FromSources;

impl Readable for FromSources {
    type Item = FromSource;

    ghost reads = { source_at };

    #[tactic(auto, unfolding(crate::specs::Queries::source_at))]
    fn read(alloc: Global, tokens: &[Token]) -> Result<(FromSource, &[Token]), SqlFault> {
        let (name, rest) = Names::read(alloc, tokens)?;
        let (alias, rest) = known_as_at(alloc, rest)?;
        Ok((FromSource { name, alias }, rest))
    }
}
