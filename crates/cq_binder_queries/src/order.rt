//! ORDER BY: where its keys stand among the columns of the result.
ghost use Rattle.std.specs.Prelude.{◌≡◌, ◌∷◌, [], position};
ghost use Rattle.cq_values.specs.Texts.{is_text};
ghost use Rattle.cq_binder_rules.specs.Orders.{key_checks, named_check, named_place, order_checks, sort_keys};
ghost use Rattle.cq_binder_queries.specs.Order.{FindsOutput};
ghost use Rattle.cq_binder_queries.specs.Walk.{WalksTo};

use crate::lists::{check_length, is_named};
use cq_binder_rules::Fault;
use cq_model_bags::SortKey;
use cq_sql_language::{OrderKey, OutputColumn};
use cq_values::{Seq, Text};
use std::alloc::Global;

/// What a result is sorted by whose columns have these names, once each key and their number have been walked through.
pub(crate) fn sort_keys(
    alloc: Global,
    names: &[Text],
    order: &[OrderKey],
) -> Result<Seq<SortKey>, Fault>
    ensures { WalksTo (order_checks names.now order.now) (sort_keys names.now order.now) result }
{
    let keys = bound_keys(alloc, names, order)?;
    check_length(order.len())?;
    Ok(keys)
}

/// What a result is sorted by whose columns have these names, once each key has been walked through, however many they are.
pub(crate) fn bound_keys(
    alloc: Global,
    names: &[Text],
    order: &[OrderKey],
) -> Result<Seq<SortKey>, Fault>
    ensures { WalksTo (key_checks names.now order.now) (sort_keys names.now order.now) result }
{
    let mut keys = Seq::new(alloc);
    for key in order {
        keys.push(SortKey {
            column: output_place(names, &key.column)?,
            descending: key.is_descending,
        })?;
    }
    Ok(keys)
}

/// Where the output column stands that a key names. Places are written from 1.
fn output_place(names: &[Text], column: &OutputColumn) -> Result<usize, Fault>
    ensures { FindsOutput names.now column.now result }
{
    match column {
        OutputColumn::Named(name) => named_place(names, name.as_str()),
        OutputColumn::At(place) => {
            let place = *place;
            if place == 0 || (names.len() as u128) < place {
                Err(Fault::UnknownColumn)
            } else {
                Ok(place as usize - 1)
            }
        }
    }
}

/// Where the one output column of a name stands.
fn named_place(names: &[Text], name: &str) -> Result<usize, Fault>
    ensures { WalksTo (named_check name.now names.now ∷ []) (named_place name.now names.now) result }
{
    match first_named(names, name) {
        None => Err(Fault::UnknownColumn),
        Some(place) => {
            if is_named(&names[place + 1..], name) {
                Err(Fault::AmbiguousColumn)
            } else {
                Ok(place)
            }
        }
    }
}

fn first_named(names: &[Text], name: &str) -> Option<usize>
    ensures { result ≡ position (λ n. is_text n name.now) names.now }
{
    names.iter().position(|n| n.as_str() == name)
}
