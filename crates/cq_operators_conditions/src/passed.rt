//! Rows of one source that pass conditions of their own before they are joined.
ghost use Rattle.std.specs.List.{AllByRecursion};
ghost use Rattle.std.specs.Prelude.{◌≡◌, ◌≤◌, IfOk, length};
ghost use Rattle.cq_model.specs.Trees.{cond_of};
ghost use Rattle.cq_operators_conditions.specs.Passing.{ArePassed, CanAllPass, passing_rows};
ghost use Rattle.cq_operators_scans.specs.Asked.{IsExactBehind, passing_one};
ghost use Rattle.cq_table_positions.specs.Rows.{rows_in};
ghost use Rattle.cq_table_columns.specs.Stored.{all_rows, front_rows};

use crate::lent::lend_all;
use crate::places::segment_passing;
use crate::skipping::{is_missed, split_missed};
use cq_model::CondTree;
use cq_operators_scans::{Scan, pass_marked, passing_places};
use cq_prims::KnownTruths;
use cq_table_columns::{Front, Stored};
use cq_table_positions::{Placed, StoredRows, live_rows, marked_piece};
use std::alloc::{AllocError, Global};

/// The rows that pass all conditions, where they are. In these the values of a row stand behind so many others. It goes
/// through the rows 1,024 at a time, and past the segments that can have none. Where all stand in one segment it gives
/// places there, and else a list.
pub fn passing<'a>(
    alloc: Global,
    before: usize,
    conditions: &[&'a CondTree],
    rows: &Stored<'a>,
) -> Result<StoredRows<'a>, AllocError>
    requires { CanAllPass before conditions.now (all_rows rows.now) }
    ensures { IfOk result (ArePassed before conditions.now (all_rows rows.now)) }
{
    let mut known = KnownTruths::new(alloc);
    if let Some(segment) = rows.only_segment() {
        if split_missed(before, conditions, rows).is_none() {
            let places = segment_passing(alloc, before, conditions, segment, &mut known)?;
            return Ok(StoredRows::Placed(Placed::of(segment, places)));
        }
    }
    list_passing(alloc, before, conditions, rows, &mut known)
}

/// A list of the rows that pass all conditions.
fn list_passing<'a>(
    alloc: Global,
    before: usize,
    conditions: &[&'a CondTree],
    rows: &Stored<'a>,
    known: &mut KnownTruths<'a>,
) -> Result<StoredRows<'a>, AllocError>
    requires { CanAllPass before conditions.now (all_rows rows.now) }
    ensures { IfOk result (ArePassed before conditions.now (all_rows rows.now)) }
{
    if conditions.is_empty() {
        return Ok(StoredRows::Listed(lend_all(alloc, rows)?));
    }
    let mut passing = Vec::new(alloc);
    let mut left = *rows;
    while !left.is_empty() {
        if let Some((_, rest)) = split_missed(before, conditions, &left) {
            left = rest;
        } else {
            let (front, rest) = left.split_front();
            let passed = pass_all(alloc, before, conditions, &front, known)?;
            passing.append(&mut passed.into_rows(alloc)?)?;
            left = rest;
        }
    }
    Ok(StoredRows::Listed(passing))
}

/// The same as a scan: the rows stay places of the front. These columns are gathered, but of a piece with marks, where the
/// condition that reads them may be asked of all rows. What is known of texts that fit patterns is kept for the next front.
pub fn scan_passing<'a>(
    alloc: Global,
    conditions: &[&'a CondTree],
    front: &Front<'a>,
    known: &mut KnownTruths<'a>,
    columns: &[usize],
) -> Result<Scan<'a>, AllocError>
    requires few { length (front_rows front.now) ≤ 1024 }
    requires exact { CanAllPass 0 conditions.now (front_rows front.now) }
    ensures { IfOk result (λ scan. scan ≡ passing_rows 0 conditions.now (front_rows front.now)) }
{
    let passed = pass_all(alloc, 0, conditions, front, known)?;
    if let Some(piece) = marked_piece(&passed) {
        if columns.is_empty() {
            return Scan::open_stored(alloc, live_rows(alloc, piece)?, &[]);
        }
        return Scan::open_stored(alloc, passed, &[]);
    }
    Scan::open_stored(alloc, passed, columns)
}

fn pass_all<'a>(
    alloc: Global,
    before: usize,
    conditions: &[&'a CondTree],
    front: &Front<'a>,
    known: &mut KnownTruths<'a>,
) -> Result<StoredRows<'a>, AllocError>
    requires few { length (front_rows front.now) ≤ 1024 }
    requires exact { CanAllPass before conditions.now (front_rows front.now) }
    ensures { IfOk result (λ p. rows_in p ≡ passing_rows before conditions.now (front_rows front.now)) }
{
    if is_missed(before, conditions, front) {
        return Ok(StoredRows::Listed(Vec::new(alloc)));
    }
    let mut passed = StoredRows::Front(*front);
    for condition in conditions {
        passed = pass_one(alloc, before, condition, &passed, known)?;
    }
    Ok(passed)
}

fn pass_one<'a>(
    alloc: Global,
    before: usize,
    condition: &'a CondTree,
    rows: &StoredRows<'a>,
    known: &mut KnownTruths<'a>,
) -> Result<StoredRows<'a>, AllocError>
    requires few { length (rows_in rows.now) ≤ 1024 }
    requires exact { AllByRecursion (IsExactBehind before (cond_of condition.now)) (rows_in rows.now) }
    ensures { IfOk result (λ p. rows_in p ≡ passing_one before condition.now (rows_in rows.now)) }
{
    if let Some(piece) = marked_piece(rows) {
        return pass_marked(alloc, before, condition, piece, known);
    }
    let kept = passing_places(alloc, before, condition, rows, known)?;
    rows.at(alloc, kept.places())
}
