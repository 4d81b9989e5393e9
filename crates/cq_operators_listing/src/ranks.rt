//! Ranks: numbers by which most rows of a listing are told apart.
ghost use Rattle.std.specs.Prelude.{◌≡◌, ◌≤◌, ◌<◌, ◌^◌, slice_get};
ghost use Rattle.cq_values.specs.Lent.{owned};
ghost use Rattle.cq_values.specs.Value.{column};
ghost use Rattle.cq_operators_listing.specs.Ranks.{column_rank as rank_at, directed_rank as directed, joined as as_one, key_rank as rank_by};
ghost use Rattle.cq_operators_listing.specs.Ranks.{number_rank as rank_of, digit_of, row_ranks as ranks_of, text_rank as read, value_rank as ranked};

use cq_model_bags::SortKey;
use cq_values::Lent;
use cq_values_rows::LentRow;

/// A number as far from 0 as this shares its rank with those that are farther.
const FAR: i128 = 1_152_921_504_606_846_976;

/// How many ranks the values of one kind have.
const KIND: u64 = 4_611_686_018_427_387_904;

/// The ranks of what a listing compares first and second, as one number.
pub(crate) fn row_ranks(keys: &[SortKey], row: &LentRow<'_>) -> u128
    ensures { result ≡ ranks_of keys.now row.now }
{
    match keys {
        [] => joined(false, column_rank(row, 0), column_rank(row, 1)),
        [key] => joined(key.descending, first_rank(*key, row), column_rank(row, 0)),
        [key, next, ..] => joined(key.descending, first_rank(*key, row), key_rank(*next, row)),
    }
}

/// The second rank counts where the first, an even one, is that of one value alone.
fn joined(descending: bool, first: u64, second: u64) -> u128
    ensures { result ≡ as_one descending first second }
{
    let ranks = u128::from(directed_rank(descending, first)) * 18_446_744_073_709_551_616;
    if first % 2 == 0 {
        ranks + u128::from(second)
    } else {
        ranks
    }
}

fn key_rank(key: SortKey, row: &LentRow<'_>) -> u64
    ensures { result ≡ rank_by key row.now }
{
    directed_rank(key.descending, first_rank(key, row))
}

fn directed_rank(descending: bool, rank: u64) -> u64
    ensures { result ≡ directed descending rank }
{
    if descending { u64::MAX - rank } else { rank }
}

fn first_rank(key: SortKey, row: &LentRow<'_>) -> u64
    ensures { result ≡ ranked (column row.now key.column) }
{
    value_rank(&row.lend(key.column))
}

fn column_rank(row: &LentRow<'_>, at: usize) -> u64
    ensures { result ≡ rank_at row.now at }
{
    if at < row.len() {
        value_rank(&row.lend(at))
    } else {
        0
    }
}

fn value_rank(value: &Lent<'_>) -> u64
    ensures { result ≡ ranked (owned value.now) }
{
    match value {
        Lent::Number(n) => number_rank(*n),
        Lent::Day(day) => KIND + number_rank(i128::from(day.number())),
        Lent::Text(text) => 2 * KIND + text_rank(text.as_bytes()),
        Lent::Null => 3 * KIND,
    }
}

fn number_rank(n: i128) -> u64
    ensures value { result ≡ rank_of n }
    ensures small { result < 2 ^ 62 }
{
    if n <= -FAR {
        1
    } else if FAR <= n {
        KIND - 1
    } else {
        2 * (n + FAR) as u64
    }
}

/// The first seven bytes as digits, and a last digit that tells whether there are more.
fn text_rank(bytes: &[u8]) -> u64
    ensures value { result ≡ read 7 bytes.now }
    ensures small { result < 2 ^ 62 }
{
    let mut rank = 0;
    for place in 0..7 {
        rank = rank * 257 + digit(bytes, place);
    }
    rank * 2 + u64::from(bytes.len() > 7)
}

/// The digit of a byte, from 1 on, and 0 past the end.
fn digit(bytes: &[u8], place: usize) -> u64
    ensures value { result ≡ digit_of (slice_get bytes.now place) }
    ensures small { result ≤ 256 }
{
    match bytes.get(place) {
        Some(byte) => u64::from(*byte) + 1,
        None => 0,
    }
}
