//! The conditions of WHERE that are one source's own. Its rows may be asked for them before any join.
ghost use Rattle.std.specs.Prelude.{IfOk, OnOk};
ghost use Rattle.cq_model.specs.Own.{AreOwn};
ghost use Rattle.cq_model.specs.Trees.{cond_of};
ghost use Rattle.cq_plan.specs.Own.{AreOwnOf, AskAllOfTree, AskAllOwnOf, AskMore, StayOwn, conditions_of};

use cq_model::{Cond, CondTree};
use cq_model_terms::tests_only;
use std::alloc::{AllocError, Global};

/// The parts of WHERE, joined to the rest by AND, that name the columns of one source alone: so many from a place on. A
/// row of the source that passes them passes all such parts.
pub fn own_conditions<'q>(
    alloc: Global,
    filter: &'q Option<Cond>,
    before: usize,
    wide: usize,
) -> Result<Vec<&'q CondTree>, AllocError>
    ensures own { IfOk result (λ own. AreOwnOf filter.now before wide (conditions_of own.items)) }
    ensures all { IfOk result (λ own. AskAllOwnOf filter.now before wide (conditions_of own.items)) }
{
    match filter {
        Some(condition) => own_parts(alloc, condition.tree(), before, wide),
        None => Ok(Vec::new(alloc)),
    }
}

fn own_parts<'q>(
    alloc: Global,
    tree: &'q CondTree,
    before: usize,
    wide: usize,
) -> Result<Vec<&'q CondTree>, AllocError>
    ensures own { IfOk result (λ own. AreOwn (cond_of tree.now) before wide (conditions_of own.items)) }
    ensures all { IfOk result (λ own. AskAllOfTree tree.now before wide own.items) }
{
    let mut own = Vec::new(alloc);
    add_own(tree, before, wide, &mut own)?;
    Ok(own)
}

/// Adds the whole condition, or what can be added of the parts that AND joins.
fn add_own<'q>(
    tree: &'q CondTree,
    before: usize,
    wide: usize,
    own: &mut Vec<&'q CondTree>,
) -> Result<(), AllocError>
    ensures own { OnOk result (StayOwn tree.now before wide own.old.items own.new.items) }
    ensures all { OnOk result (AskMore tree.now before wide own.old.items own.new.items) }
{
    if tests_only(tree, before, wide) {
        own.push(tree)?;
        return Ok(());
    }
    match tree {
        CondTree::And(first, rest) => {
            add_own(first, before, wide, own)?;
            for part in rest {
                add_own(part, before, wide, own)?;
            }
            Ok(())
        }
        // An OR of one part is that part.
        CondTree::Or(first, rest) => {
            if rest.is_empty() {
                add_own(first, before, wide, own)
            } else {
                Ok(())
            }
        }
        _ => Ok(()),
    }
}
