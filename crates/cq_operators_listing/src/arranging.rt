//! Rows put in the order of a listing.
ghost use Rattle.std.specs.Bool.{IsTrue, OnTrue};
ghost use Rattle.std.specs.Prelude.{◌↔◌, ◌≡◌, ◌≤◌, IfOk, None};
ghost use Rattle.cq_model_bags.specs.Bag.{once_each};
ghost use Rattle.cq_model_bags.specs.Listing.{IsListing, Lists};
ghost use Rattle.cq_operators_listing.specs.InOrder.{EachInOrder};
ghost use Rattle.cq_operators_listing.specs.Ranked.{TakesFirst};

use crate::by_numbers::listed_by_numbers;
use crate::comparing::cmp_listed;
use crate::merging::first_places;
use cq_model::Order;
use cq_model_bags::SortKey;
use cq_values_rows::RowList;
use std::alloc::{AllocError, Global};

/// Whether the rows are in order. It looks no further than the first pair that is not.
pub fn is_listed(keys: &[SortKey], rows: &RowList) -> bool
    ensures order { IsTrue result ↔ EachInOrder keys.now rows.now }
    ensures listed { OnTrue result (Lists keys.now (once_each rows.now) rows.now) }
{
    for place in 1..rows.len() {
        if cmp_listed(keys, &rows.row(place - 1), &rows.row(place)).is_gt() {
            return false;
        }
    }
    true
}

/// The listing of rows that are made. Only those that LIMIT leaves are copied.
pub fn in_order(alloc: Global, order: &Order, rows: &RowList) -> Result<RowList, AllocError>
    ensures { IfOk result (λ list. IsListing order.now.keys order.now.limit (once_each rows.now) list) }
{
    first_rows(alloc, order.keys.as_slice(), order.limit, rows)
}

/// The first rows in order, as copies. Only these are copied.
pub(crate) fn first_rows(
    alloc: Global,
    keys: &[SortKey],
    limit: Option<u128>,
    rows: &RowList,
) -> Result<RowList, AllocError>
    ensures { IfOk result (λ first. IsListing keys.now limit (once_each rows.now) first) }
{
    match limit {
        None => all_rows(alloc, keys, rows),
        Some(_) => first_ranked(alloc, keys, limit, rows),
    }
}

/// All rows in order, by their numbers where these tell it, and else by their ranks.
fn all_rows(alloc: Global, keys: &[SortKey], rows: &RowList) -> Result<RowList, AllocError>
    ensures { IfOk result (λ all. IsListing keys.now None (once_each rows.now) all) }
{
    match listed_by_numbers(alloc, keys, rows)? {
        Some(list) => Ok(list),
        None => first_ranked(alloc, keys, None, rows),
    }
}

/// The first rows in order, by the ranks of all rows.
fn first_ranked(
    alloc: Global,
    keys: &[SortKey],
    limit: Option<u128>,
    rows: &RowList,
) -> Result<RowList, AllocError>
    ensures { IfOk result (λ first. IsListing keys.now limit (once_each rows.now) first) }
{
    let count = count_within(limit, rows.len());
    let places = first_places(alloc, keys, rows, count)?;
    rows.at_places(alloc, &places)
}

/// How many of so many rows LIMIT leaves. A limit may be larger than any list.
fn count_within(limit: Option<u128>, len: usize) -> usize
    ensures few { result ≤ len }
    ensures first { TakesFirst limit len result }
{
    match limit {
        Some(limit) => limit.min(len as u128) as usize,
        None => len,
    }
}
