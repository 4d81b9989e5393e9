//! Places of rows with the ranks of what their listing compares first.
ghost use Rattle.std.specs.Ordering.{is_lt};
ghost use Rattle.std.specs.Prelude.{◌≡◌};
ghost use Rattle.cq_model_bags.specs.Listing.{listing_cmp};
ghost use Rattle.cq_operators_listing.specs.Ranked.{cmp_ranked as by_ranks, ranked};
ghost use Rattle.cq_values_rows.specs.Columns.{row_or_none};

use crate::comparing::cmp_listed;
use crate::ranks::row_ranks;
use cq_model_bags::SortKey;
use cq_values_rows::RowList;
use std::cmp::Ordering;

/// The place of a row, with one number for what its listing compares first and second. Where two such numbers differ,
/// their rows stand as the numbers do.
#[derive(Clone, Copy)]
pub(crate) struct Ranked {
    pub(crate) ranks: u128,
    pub(crate) place: usize,
}

impl Ranked {
    pub(crate) fn new(keys: &[SortKey], rows: &RowList, place: usize) -> Ranked
        ensures { result ≡ ranked keys.now rows.now place }
    {
        let ranks = row_ranks(keys, &rows.row(place));
        Ranked { ranks, place }
    }
}

/// Which of the rows stands first. The rows themselves are compared only where their ranks are equal.
#[inline]
pub(crate) fn cmp_ranked(keys: &[SortKey], rows: &RowList, a: &Ranked, b: &Ranked) -> Ordering
    ensures { result ≡ by_ranks keys.now rows.now a.now b.now }
{
    match a.ranks.cmp(&b.ranks) {
        Ordering::Equal => cmp_rows(keys, rows, a.place, b.place),
        ordering => ordering,
    }
}

/// Whether the first one stands before the other.
#[inline]
pub(crate) fn comes_first(keys: &[SortKey], rows: &RowList, a: &Ranked, b: &Ranked) -> bool
    ensures { result ≡ is_lt (by_ranks keys.now rows.now a.now b.now) }
{
    cmp_ranked(keys, rows, a, b).is_lt()
}

#[cold]
#[inline(never)]
fn cmp_rows(keys: &[SortKey], rows: &RowList, a: usize, b: usize) -> Ordering
    ensures { result ≡ listing_cmp keys.now (row_or_none rows.now a) (row_or_none rows.now b) }
{
    cmp_listed(keys, &rows.row(a), &rows.row(b))
}
