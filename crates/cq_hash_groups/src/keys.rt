//! The groups of rows, by their keys.
ghost use Rattle.std.specs.Prelude.{◌++◌, ◌≡◌, IfOk, OnOk, [], length, map};
ghost use Rattle.cq_model_bags.specs.Bag.{firsts};
ghost use Rattle.cq_operators_scans.specs.Operand.{values_in};
ghost use Rattle.cq_hash_groups.specs.Groups.{TellKeys, columns_in, group_columns, group_keys, keys_in};
ghost use Rattle.cq_hash_groups_sums.specs.Puts.{AreNumbers};

use cq_hash_keys::KeyTable;
use cq_operators_scans::{Operand, Scan, lend_vectors};
use cq_values::Seq;
use std::alloc::{AllocError, Global};

/// The groups of no rows: without GROUP BY there is one.
pub(crate) fn first_groups(alloc: Global, keys: &Option<Seq<usize>>) -> Result<KeyTable, AllocError>
    ensures width { IfOk result (λ found. found.width ≡ length (group_columns keys.now)) }
    ensures keys { IfOk result (λ found. found.keys ≡ group_keys keys.now []) }
{
    match keys {
        Some(columns) => Ok(KeyTable::new(alloc, columns.len())),
        None => {
            let mut found = KeyTable::new(alloc, 0);
            let mut numbers = Vec::new(alloc);
            match found.add(alloc, &[], 1, &mut numbers) {
                Ok(()) => Ok(found),
                Err(fault) => {
                    drop(found);
                    Err(fault)
                }
            }
        }
    }
}

/// How many values a key has.
pub(crate) fn key_width(keys: &Option<Seq<usize>>) -> usize
    ensures { result ≡ length (group_columns keys.now) }
{
    match keys {
        Some(columns) => columns.len(),
        None => 0,
    }
}

/// Puts in what is new of the rows' keys, and tells the number of each row's group.
pub(crate) fn number_rows(
    alloc: Global,
    keys: &Option<Seq<usize>>,
    scan: &Scan<'_>,
    found: &mut KeyTable,
    numbers: &mut Vec<usize>,
) -> Result<(), AllocError>
    requires { found.old.width ≡ length (group_columns keys.now) }
    ensures keys { OnOk result (found.new.keys ≡ firsts (found.old.keys ++ keys_in keys.now scan.now)) }
    ensures numbers { OnOk result (TellKeys found.new.keys numbers.new.items keys.now scan.now) }
    ensures within { OnOk result (AreNumbers (length found.new.keys) numbers.new.items) }
    ensures width { found.new.width ≡ found.old.width }
{
    let columns = key_columns(alloc, keys, scan)?;
    let lent = lend_vectors(alloc, &columns)?;
    found.add(alloc, &lent, scan.len(), numbers)
}

/// The columns of GROUP BY.
fn key_columns<'s, 'a>(
    alloc: Global,
    keys: &Option<Seq<usize>>,
    scan: &'s Scan<'a>,
) -> Result<Vec<Operand<'s, 'a>>, AllocError>
    ensures { IfOk result (λ columns. map values_in columns.items ≡ columns_in keys.now scan.now) }
{
    match keys {
        Some(places) => scan.columns(alloc, places.as_slice()),
        None => Ok(Vec::new(alloc)),
    }
}
