//! Whether a condition reads values alone and works none out, so that no number on the way can be too wide.
ghost use Rattle.std.specs.Bool.{OnTrue};
ghost use Rattle.std.specs.List.{list_all};
ghost use Rattle.std.specs.Prelude.{◌≡◌, map};
ghost use Rattle.cq_model.specs.Exact.{AreExactIn};
ghost use Rattle.cq_model.specs.Trees.{cond_of, expr_of};
ghost use Rattle.cq_model_terms.specs.Reads.{only_reads, only_reads_in};
ghost use Rattle.cq_values.specs.Value.{Row};

use cq_model::{CondTree, ExprTree};

/// Whether the condition can be asked of any row, as it works no number out.
pub fn is_always_exact(tree: &CondTree) -> bool
    ensures { OnTrue result ((row : Row) → AreExactIn (cond_of tree.now) row) }
{
    only_reads_in(tree)
}

fn only_reads_in(tree: &CondTree) -> bool
    ensures { result ≡ only_reads_in (cond_of tree.now) }
{
    match tree {
        CondTree::Compare(_, a, b) => only_reads(a) && only_reads(b),
        CondTree::IsNull(expr) => only_reads(expr),
        CondTree::Between(expr, least, greatest) => {
            only_reads(expr) && only_reads(least) && only_reads(greatest)
        }
        CondTree::In(expr, choices) => only_reads(expr) && all_only_read(choices),
        CondTree::Like(expr, _) => only_reads(expr),
        CondTree::Not(part) => only_reads_in(part),
        CondTree::And(first, rest) | CondTree::Or(first, rest) => {
            if !only_reads_in(first) {
                return false;
            }
            for part in rest {
                if !only_reads_in(part) {
                    return false;
                }
            }
            true
        }
    }
}

fn all_only_read(trees: &[ExprTree]) -> bool
    ensures { result ≡ list_all only_reads (map expr_of trees.now) }
{
    trees.iter().all(|tree| only_reads(tree))
}

fn only_reads(tree: &ExprTree) -> bool
    ensures { result ≡ only_reads (expr_of tree.now) }
{
    match tree {
        ExprTree::Column(_) => true,
        ExprTree::Literal(_) => true,
        ExprTree::Negate(_) => false,
        ExprTree::Extract(_, part) => only_reads(part),
        ExprTree::Sum(first, rest) | ExprTree::Product(first, rest) => {
            rest.is_empty() && only_reads(first)
        }
    }
}
