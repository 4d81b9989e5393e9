//! The places of the rows that a condition keeps.
ghost use Rattle.std.specs.List.{AllByRecursion};
ghost use Rattle.std.specs.Prelude.{◌+◌, ◌≡◌, ◌<◌, ◌≤◌, ◌^◌, IfOk, OnOk, length};
ghost use Rattle.cq_model.specs.Width.{IsNarrowIn};
ghost use Rattle.cq_table.specs.Found.{PutsPlaces, where_places};
ghost use Rattle.cq_table_columns.specs.Stored.{all_rows, front_rows, marked_rows, stored_marked};

use cq_model::Cond;
use cq_model_terms::columns_of;
use cq_operators_conditions::{is_unkept, kept_places, split_unkept};
use cq_prims::KnownTruths;
use cq_table_columns::{Front, Stored};
use std::alloc::{AllocError, Global};

/// The places of the live rows that the condition keeps, among all stored rows. It goes through them 1,024 at
/// a time, and past the segments that can have none.
pub(crate) fn found_places<'a>(
    alloc: Global,
    condition: &'a Option<Cond>,
    rows: &Stored<'a>,
) -> Result<Vec<usize>, AllocError>
    requires narrow { AllByRecursion (IsNarrowIn condition.now) (all_rows rows.now) }
    requires few { length (stored_marked rows.now) < 2 ^ 64 }
    ensures { IfOk result (λ f. f.items ≡ where_places 0 condition.now (stored_marked rows.now)) }
{
    let columns = columns_read(alloc, condition)?;
    let mut known = KnownTruths::new(alloc);
    let mut found = Vec::new(alloc);
    let mut before = 0;
    let mut left = *rows;
    while !left.is_empty() {
        if let Some((segment, rest)) = split_unkept(condition, &left) {
            before += segment.len();
            left = rest;
        } else {
            let (front, rest) = left.split_piece();
            find_in(
                alloc, condition, &columns, before, &front, &mut known, &mut found,
            )?;
            before += front.span();
            left = rest;
        }
    }
    Ok(found)
}

/// The columns that WHERE reads.
fn columns_read(alloc: Global, condition: &Option<Cond>) -> Result<Vec<usize>, AllocError> {
    match condition {
        Some(condition) => columns_of(alloc, condition.tree()),
        None => Ok(Vec::new(alloc)),
    }
}

/// Adds the places of those that it keeps of at most 1,024 rows, behind so many others.
fn find_in<'a>(
    alloc: Global,
    condition: &'a Option<Cond>,
    columns: &[usize],
    before: usize,
    front: &Front<'a>,
    known: &mut KnownTruths<'a>,
    found: &mut Vec<usize>,
) -> Result<(), AllocError>
    requires narrow { AllByRecursion (IsNarrowIn condition.now) (front_rows front.now) }
    requires few { length (marked_rows front.now) ≤ 1024 }
    requires counted { before + length (marked_rows front.now) < 2 ^ 64 }
    ensures { OnOk result (PutsPlaces before condition.now front.now found.old found.new) }
{
    if is_unkept(condition, front) {
        return Ok(());
    }
    find_kept(alloc, condition, columns, before, front, known, found)
}

/// The same, where the front is read.
fn find_kept<'a>(
    alloc: Global,
    condition: &'a Option<Cond>,
    columns: &[usize],
    before: usize,
    front: &Front<'a>,
    known: &mut KnownTruths<'a>,
    found: &mut Vec<usize>,
) -> Result<(), AllocError>
    requires narrow { AllByRecursion (IsNarrowIn condition.now) (front_rows front.now) }
    requires few { length (marked_rows front.now) ≤ 1024 }
    requires counted { before + length (marked_rows front.now) < 2 ^ 64 }
    ensures { OnOk result (PutsPlaces before condition.now front.now found.old found.new) }
{
    let kept = kept_places(alloc, condition, columns, front, known)?;
    if kept.len() == 0 {
        return Ok(());
    }
    let live = front.live_places(alloc)?;
    for place in kept.places() {
        found.push(before + usize::from(live[usize::from(*place)]))?;
    }
    Ok(())
}
