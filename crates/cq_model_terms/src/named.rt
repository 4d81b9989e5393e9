//! Whether a tree names the columns of one source alone.
ghost use Rattle.std.specs.List.{list_all};
ghost use Rattle.std.specs.Prelude.{◌≡◌, map};
ghost use Rattle.cq_model.specs.Own.{is_within, names_only, tests_only};
ghost use Rattle.cq_model.specs.Trees.{cond_of, expr_of};

use cq_model::{CondTree, ExprTree};

/// Whether the condition names no column but so many from a place on.
pub fn tests_only(tree: &CondTree, before: usize, wide: usize) -> bool
    ensures { result ≡ tests_only before wide (cond_of tree.now) }
{
    match tree {
        CondTree::Compare(_, a, b) => names_only(a, before, wide) && names_only(b, before, wide),
        CondTree::IsNull(expr) => names_only(expr, before, wide),
        CondTree::Between(expr, least, greatest) => {
            names_only(expr, before, wide)
                && names_only(least, before, wide)
                && names_only(greatest, before, wide)
        }
        CondTree::In(expr, choices) => {
            names_only(expr, before, wide) && all_name_only(choices, before, wide)
        }
        CondTree::Like(expr, _) => names_only(expr, before, wide),
        CondTree::Not(part) => tests_only(part, before, wide),
        CondTree::And(first, rest) | CondTree::Or(first, rest) => {
            if !tests_only(first, before, wide) {
                return false;
            }
            for part in rest {
                if !tests_only(part, before, wide) {
                    return false;
                }
            }
            true
        }
    }
}

fn all_name_only(trees: &[ExprTree], before: usize, wide: usize) -> bool
    ensures { result ≡ list_all (names_only before wide) (map expr_of trees.now) }
{
    trees.iter().all(|tree| names_only(tree, before, wide))
}

fn names_only(tree: &ExprTree, before: usize, wide: usize) -> bool
    ensures { result ≡ names_only before wide (expr_of tree.now) }
{
    match tree {
        ExprTree::Column(place) => is_within(*place, before, wide),
        ExprTree::Literal(_) => true,
        ExprTree::Negate(part) => names_only(part, before, wide),
        ExprTree::Extract(_, part) => names_only(part, before, wide),
        ExprTree::Sum(first, rest) | ExprTree::Product(first, rest) => {
            if !names_only(first, before, wide) {
                return false;
            }
            for part in rest {
                if !names_only(part, before, wide) {
                    return false;
                }
            }
            true
        }
    }
}

fn is_within(place: usize, before: usize, wide: usize) -> bool
    ensures { result ≡ is_within before wide place }
{
    before <= place && place - before < wide
}
