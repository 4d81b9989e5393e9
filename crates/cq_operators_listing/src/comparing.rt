//! The order of a listing.
ghost use Rattle.std.specs.Prelude.{◌≡◌};
ghost use Rattle.cq_values.specs.Lent.{owned};
ghost use Rattle.cq_values.specs.Value.{column};
ghost use Rattle.cq_model_bags.specs.Listing.{directed, listing_cmp};

use cq_model_bags::SortKey;
use cq_values::{Lent, cmp_lent};
use cq_values_rows::LentRow;
use std::cmp::Ordering;

/// Which row stands first: by the keys in turn, and then by all columns.
pub(crate) fn cmp_listed(keys: &[SortKey], a: &LentRow<'_>, b: &LentRow<'_>) -> Ordering
    ensures { result ≡ listing_cmp keys.now a.now b.now }
{
    for key in keys {
        let ordering = cmp_by_key(*key, a, b);
        if ordering.is_ne() {
            return ordering;
        }
    }
    a.cmp(b)
}

fn cmp_by_key(key: SortKey, a: &LentRow<'_>, b: &LentRow<'_>) -> Ordering
    ensures { result ≡ directed key.descending (column a.now key.column) (column b.now key.column) }
{
    cmp_directed(key.descending, &a.lend(key.column), &b.lend(key.column))
}

/// DESC turns the order round, NULL included.
pub(crate) fn cmp_directed(descending: bool, a: &Lent<'_>, b: &Lent<'_>) -> Ordering
    ensures { result ≡ directed descending (owned a.now) (owned b.now) }
{
    if descending {
        cmp_lent(b, a)
    } else {
        cmp_lent(a, b)
    }
}
