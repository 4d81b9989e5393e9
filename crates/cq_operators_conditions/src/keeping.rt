//! The places of the rows that a condition keeps.
ghost use Rattle.std.specs.List.{AllByRecursion};
ghost use Rattle.std.specs.Prelude.{◌≡◌, ◌≤◌, IfOk, length};
ghost use Rattle.cq_model.specs.Exact.{AreExactIn};
ghost use Rattle.cq_model.specs.Width.{IsNarrowIn};
ghost use Rattle.cq_operators_conditions.specs.Kept.{kept_at, true_at};
ghost use Rattle.cq_table_columns.specs.Stored.{front_rows};

use cq_model::Cond;
use cq_model_eval::narrow_is_exact;
use cq_operators_scans::{Scan, truths_of};
use cq_prims::KnownTruths;
use cq_table_columns::Front;
use cq_vectors_masks::Selection;
use std::alloc::{AllocError, Global};

/// The places among at most 1,024 rows of those that the condition keeps: those of which it is True, and all where there
/// is none. These columns are gathered first. No number on the way may be too wide.
pub fn kept_places<'a>(
    alloc: Global,
    condition: &'a Option<Cond>,
    columns: &[usize],
    front: &Front<'a>,
    known: &mut KnownTruths<'a>,
) -> Result<Selection, AllocError>
    requires few { length (front_rows front.now) ≤ 1024 }
    requires narrow { AllByRecursion (IsNarrowIn condition.now) (front_rows front.now) }
    ensures { IfOk result (λ places. places ≡ kept_at condition.now (front_rows front.now)) }
{
    narrow_is_exact();
    match condition {
        Some(condition) => true_places(alloc, condition, columns, front, known),
        None => {
            let mut all = Selection::new();
            all.set_all(front.len());
            Ok(all)
        }
    }
}

/// The places of the rows of which it is True.
fn true_places<'a>(
    alloc: Global,
    condition: &'a Cond,
    columns: &[usize],
    front: &Front<'a>,
    known: &mut KnownTruths<'a>,
) -> Result<Selection, AllocError>
    requires few { length (front_rows front.now) ≤ 1024 }
    requires exact { AllByRecursion (AreExactIn condition.now) (front_rows front.now) }
    ensures { IfOk result (λ places. places ≡ true_at condition.now (front_rows front.now)) }
{
    let scan = Scan::open_front(alloc, *front, columns)?;
    let truths = truths_of(alloc, condition, &scan, known)?;
    let mut kept = Selection::new();
    kept.set_true(&truths);
    Ok(kept)
}
