//! What stands above the items of a SELECT.
ghost use Rattle.std.specs.Prelude.{◌≡◌, IfOk, option_map, unwrap_or};
ghost use Rattle.cq_sql_language.specs.Written.{written};
ghost use Rattle.cq_binder_rules.specs.Headers.{bare_name, header, name_by_place, shown_name};

use cq_sql_language::{ExprNode, SelectItem, SqlExpr};
use cq_values::{Seq, Text};
use std::alloc::{AllocError, Global};

/// What stands above the items, in their order.
pub(crate) fn header(alloc: Global, items: &[SelectItem]) -> Result<Seq<Text>, AllocError>
    ensures { IfOk result (λ names. names ≡ header 1 items.now) }
{
    let mut names = Seq::new(alloc);
    for (i, item) in items.iter().enumerate() {
        names.push(item_name(alloc, i + 1, item)?)?;
    }
    Ok(names)
}

/// The name behind AS, or else the item's own. Places are counted from 1.
pub(crate) fn item_name(alloc: Global, place: usize, item: &SelectItem) -> Result<Text, AllocError>
    ensures { IfOk result (λ name. name ≡ unwrap_or item.now.alias (shown_name place item.now.value)) }
{
    match &item.alias {
        Some(alias) => alias.copy(alloc),
        None => shown_name(alloc, place, &item.value),
    }
}

/// What an item is called by itself: a bare column by its name, and any other by its place.
fn shown_name(alloc: Global, place: usize, value: &SqlExpr) -> Result<Text, AllocError>
    ensures { IfOk result (λ name. name ≡ shown_name place value.now) }
{
    match bare_name(value.node()) {
        Some(name) => name.copy(alloc),
        None => name_by_place(alloc, place),
    }
}

/// The name that an item has from its place.
fn name_by_place(alloc: Global, place: usize) -> Result<Text, AllocError>
    ensures { IfOk result (λ name. name ≡ name_by_place place) }
{
    let name = format!(in alloc; "c{place}")?;
    Ok(Text::from_string(name))
}

/// The name of the column that the expression is, where it is nothing more; a chain of one part is that part.
fn bare_name(node: &ExprNode) -> Option<&Text>
    ensures { option_map (λ name. name.now) result ≡ bare_name (written node.now) }
{
    match node {
        ExprNode::Column(column) => Some(&column.name),
        ExprNode::Product(first, rest) | ExprNode::And(first, rest) | ExprNode::Or(first, rest) => {
            if rest.is_empty() {
                bare_name(first)
            } else {
                None
            }
        }
        ExprNode::Sum(first, signs, rest) => {
            if signs.is_empty() || rest.is_empty() {
                bare_name(first)
            } else {
                None
            }
        }
        _ => None,
    }
}
