//! The items of a SELECT.
ghost use Rattle.cq_sql.specs.Queries.{select_item_at};

use crate::names::Names;
use cq_sql_expressions::{Readable, SqlExpressions, SqlFault, tail_of};
use cq_sql_language::{Keyword, SelectItem, Token};
use std::alloc::Global;

pub struct SelectItems;

impl Readable for SelectItems {
    type Item = SelectItem;

    ghost reads = { select_item_at };

    #[tactic(auto, unfolding(crate::specs::Queries::select_item_at))]
    fn read(alloc: Global, tokens: &[Token]) -> Result<(SelectItem, &[Token]), SqlFault> {
        let (value, rest) = SqlExpressions::read(alloc, tokens)?;
        let (alias, rest) = tail_of::<Names>(alloc, Keyword::As, rest)?;
        Ok((SelectItem { value, alias }, rest))
    }
}
