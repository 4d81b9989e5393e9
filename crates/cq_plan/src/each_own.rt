//! Whether each part of WHERE is some source's own.
ghost use Rattle.std.specs.Prelude.{◌≡◌};
ghost use Rattle.cq_model.specs.Trees.{cond_of};
ghost use Rattle.cq_plan.specs.EachOwn.{each_is_of_one, is_of_one};

use crate::plans::PlannedSource;
use cq_model::CondTree;
use cq_model_terms::tests_only;

/// Whether each of the parts that AND joins names the columns of one source alone. It takes no memory.
pub(crate) fn each_is_own(tree: &CondTree, sources: &[PlannedSource<'_>]) -> bool
    ensures { result ≡ each_is_of_one sources.now (cond_of tree.now) }
{
    match tree {
        CondTree::And(part, rest) => {
            if !each_is_own(part, sources) {
                return false;
            }
            for part in rest {
                if !each_is_own(part, sources) {
                    return false;
                }
            }
            true
        }
        // An OR of one part is that part.
        CondTree::Or(part, rest) => {
            if rest.is_empty() {
                each_is_own(part, sources)
            } else {
                is_own_of_one(tree, sources)
            }
        }
        _ => is_own_of_one(tree, sources),
    }
}

/// Whether the condition names the columns of one source alone.
fn is_own_of_one(tree: &CondTree, sources: &[PlannedSource<'_>]) -> bool
    ensures { result ≡ is_of_one sources.now (cond_of tree.now) }
{
    for source in sources {
        if tests_only(tree, source.before, source.wide) {
            return true;
        }
    }
    false
}
