//! Items that show each row as it is.
ghost use Rattle.std.specs.Bool.{OnTrue};
ghost use Rattle.std.specs.List.{AllByRecursion};
ghost use Rattle.std.specs.Prelude.{◌≡◌, length, map};
ghost use Rattle.cq_model.specs.Expr.{Column};
ghost use Rattle.cq_model.specs.Meaning.{items_of};
ghost use Rattle.cq_views_state.specs.WholeRows.{AreColumns};

use cq_model::{Expr, ExprTree};
use cq_values_rows::{RowList, rows_come_in_turn};

/// Whether the items are just the columns of each of these rows, in order. Then the rows can be kept, and none is made.
pub fn show_whole_rows(items: &[Expr], rows: &RowList) -> bool
    ensures { OnTrue result (map (items_of items.now) rows.now ≡ rows.now) }
{
    are_columns(items) && have_width(rows, items.len())
}

/// Whether the items are columns, each at its place.
fn are_columns(items: &[Expr]) -> bool
    ensures { OnTrue result (AreColumns items.now) }
{
    for place in 0..items.len() {
        if !is_column(&items[place], place) {
            return false;
        }
    }
    true
}

fn is_column(item: &Expr, place: usize) -> bool
    ensures { OnTrue result (item.now ≡ Column place) }
{
    match item.tree() {
        ExprTree::Column(at) => *at == place,
        _ => false,
    }
}

fn have_width(rows: &RowList, width: usize) -> bool
    ensures { OnTrue result (AllByRecursion (λ row. length row ≡ width) rows.now) }
{
    rows_come_in_turn();
    for place in 0..rows.len() {
        if rows.row(place).len() != width {
            return false;
        }
    }
    true
}
