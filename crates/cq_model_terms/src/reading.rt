//! Whether a tree reads a column.
ghost use Rattle.std.specs.List.{list_any};
ghost use Rattle.std.specs.Prelude.{◌≡◌, map};
ghost use Rattle.cq_model.specs.Trees.{cond_of, expr_of};
ghost use Rattle.cq_model_terms.specs.Reads.{reads, reads_in};

use cq_model::{CondTree, ExprTree};

/// Whether the condition reads the column.
pub fn reads_in(tree: &CondTree, place: usize) -> bool
    ensures { result ≡ reads_in place (cond_of tree.now) }
{
    match tree {
        CondTree::Compare(_, a, b) => reads(a, place) || reads(b, place),
        CondTree::IsNull(expr) => reads(expr, place),
        CondTree::Between(expr, least, greatest) => {
            reads(expr, place) || reads(least, place) || reads(greatest, place)
        }
        CondTree::In(expr, choices) => reads(expr, place) || one_reads(choices, place),
        CondTree::Like(expr, _) => reads(expr, place),
        CondTree::Not(part) => reads_in(part, place),
        CondTree::And(first, rest) | CondTree::Or(first, rest) => {
            if reads_in(first, place) {
                return true;
            }
            for part in rest {
                if reads_in(part, place) {
                    return true;
                }
            }
            false
        }
    }
}

fn one_reads(trees: &[ExprTree], place: usize) -> bool
    ensures { result ≡ list_any (reads place) (map expr_of trees.now) }
{
    trees.iter().any(|tree| reads(tree, place))
}

/// Whether the expression reads the column.
pub fn reads(tree: &ExprTree, place: usize) -> bool
    ensures { result ≡ reads place (expr_of tree.now) }
{
    match tree {
        ExprTree::Column(column) => *column == place,
        ExprTree::Literal(_) => false,
        ExprTree::Negate(part) => reads(part, place),
        ExprTree::Extract(_, part) => reads(part, place),
        ExprTree::Sum(first, rest) | ExprTree::Product(first, rest) => {
            if reads(first, place) {
                return true;
            }
            for part in rest {
                if reads(part, place) {
                    return true;
                }
            }
            false
        }
    }
}
