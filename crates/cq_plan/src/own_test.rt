//! One condition on a source's rows.
ghost use Rattle.std.specs.Prelude.{IfOk};
ghost use Rattle.cq_plan.specs.OwnTest.{AreBehind, IsOwnTest};

use crate::own::own_conditions;
use cq_model::{Cond, CondTree};
use cq_model_terms::{Naming, renamed_cond};
use cq_values::both;
use std::alloc::{AllocError, Global};

/// The parts of WHERE that name the columns of one source alone, so many from a place on, as a condition on its rows;
/// none where there is no such part.
pub fn own_condition(
    alloc: Global,
    filter: &Option<Cond>,
    before: usize,
    wide: usize,
) -> Result<Option<Cond>, AllocError>
    ensures { IfOk result (IsOwnTest filter.now before wide) }
{
    let own = own_conditions(alloc, filter, before, wide)?;
    let Some((first, rest)) = own.as_slice().split_first() else {
        return Ok(None);
    };
    let first = renamed_cond(alloc, first, Naming::Behind(before))?;
    let first = Box::new(alloc, first)?;
    let (first, rest) = both(first, parts_behind(alloc, rest, before))?;
    Ok(Some(Cond::new(CondTree::And(first, rest))))
}

/// Several parts, on the rows of a source behind so many columns.
fn parts_behind(
    alloc: Global,
    parts: &[&CondTree],
    before: usize,
) -> Result<Vec<CondTree>, AllocError>
    ensures { IfOk result (λ all. AreBehind before parts.now all.items) }
{
    let mut all = Vec::new(alloc);
    for part in parts {
        all.push(renamed_cond(alloc, part, Naming::Behind(before))?)?;
    }
    Ok(all)
}
