//! ORDER BY and LIMIT.
ghost use Rattle.std.specs.Prelude.{◌≡◌, IfOk, take};
ghost use Rattle.cq_values.specs.Value.{column};
ghost use Rattle.cq_model_bags.specs.Bag.{once_each};
ghost use Rattle.cq_model_bags.specs.Listing.{Lists, directed, first_rows, listing_cmp};
ghost use Rattle.cq_test_plain.specs.Rows.{AreListed};

use cq_model::Order;
use cq_model_bags::SortKey;
use cq_values::{Row, Value, cmp_lent, lend_column};
use std::alloc::AllocError;
use std::cmp::Ordering;

/// The rows in the order of the keys, then of all columns, and of these as many as LIMIT allows.
pub fn listing(rows: Vec<Row>, order: &Order) -> Result<Vec<Row>, AllocError>
    ensures { IfOk result (AreListed order.now (once_each rows.items)) }
{
    let list = sorted(rows, order.keys.as_slice())?;
    Ok(limited(list, order.limit))
}

fn sorted(rows: Vec<Row>, keys: &[SortKey]) -> Result<Vec<Row>, AllocError>
    ensures { IfOk result (λ list. Lists keys.now (once_each rows.items) list.items) }
{
    let mut rows = rows;
    rows.sort_by(|a, b| cmp_listed(keys, a.as_slice(), b.as_slice()))?;
    Ok(rows)
}

/// The rows that LIMIT leaves. A limit may be larger than any list.
fn limited(rows: Vec<Row>, limit: Option<u128>) -> Vec<Row>
    ensures { result.items ≡ first_rows limit rows.items }
{
    match limit {
        Some(limit) if limit < rows.len() as u128 => first_rows(rows, limit as usize),
        _ => rows,
    }
}

fn first_rows(rows: Vec<Row>, count: usize) -> Vec<Row>
    ensures { result.items ≡ take count rows.items }
{
    let mut rows = rows;
    rows.truncate(count);
    rows
}

fn cmp_listed(keys: &[SortKey], a: &[Value], b: &[Value]) -> Ordering
    ensures { result ≡ listing_cmp keys.now a.now b.now }
{
    for key in keys {
        let ordering = cmp_by_key(*key, a, b);
        if ordering.is_ne() {
            return ordering;
        }
    }
    a.cmp(b)
}

fn cmp_by_key(key: SortKey, a: &[Value], b: &[Value]) -> Ordering
    ensures { result ≡ directed key.descending (column a.now key.column) (column b.now key.column) }
{
    let (first, second) = (lend_column(a, key.column), lend_column(b, key.column));
    if key.descending {
        cmp_lent(&second, &first)
    } else {
        cmp_lent(&first, &second)
    }
}
