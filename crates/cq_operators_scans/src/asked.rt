//! A condition asked of rows of one source, whose values stand behind NULLs.
ghost use Rattle.std.specs.List.{AllByRecursion};
ghost use Rattle.std.specs.Prelude.{◌≡◌, ◌≤◌, IfOk, length};
ghost use Rattle.cq_model.specs.Trees.{cond_of};
ghost use Rattle.cq_operators_scans.specs.Asked.{ArePassing, AreTruthsBehind, IsExactBehind, passing_one};
ghost use Rattle.cq_operators_scans.specs.Paired.{ArePlaces};
ghost use Rattle.cq_segments_pieces.specs.Marked.{live};
ghost use Rattle.cq_table_positions.specs.Rows.{rows_in};

use crate::scan::Scan;
use crate::truths::truths_of_tree;
use cq_model::CondTree;
use cq_model_terms::{columns_of, is_always_exact};
use cq_prims::KnownTruths;
use cq_segments_pieces::Piece;
use cq_table_columns::Front;
use cq_table_positions::{StoredRows, live_rows, live_true};
use cq_vectors_masks::{Selection, TruthMask};
use std::alloc::{AllocError, Global};

/// The places of the rows that pass a condition.
pub fn passing_places<'a>(
    alloc: Global,
    before: usize,
    condition: &'a CondTree,
    rows: &StoredRows<'a>,
    known: &mut KnownTruths<'a>,
) -> Result<Selection, AllocError>
    requires few { length (rows_in rows.now) ≤ 1024 }
    requires exact { AllByRecursion (IsExactBehind before (cond_of condition.now)) (rows_in rows.now) }
    ensures there { IfOk result (ArePlaces (rows_in rows.now)) }
    ensures rows { IfOk result (ArePassing before condition.now (rows_in rows.now)) }
{
    let truths = truths_behind(alloc, before, condition, rows, known)?;
    let mut kept = Selection::new();
    kept.set_true(&truths);
    Ok(kept)
}

fn truths_behind<'a>(
    alloc: Global,
    before: usize,
    condition: &'a CondTree,
    rows: &StoredRows<'a>,
    known: &mut KnownTruths<'a>,
) -> Result<TruthMask, AllocError>
    requires few { length (rows_in rows.now) ≤ 1024 }
    requires exact { AllByRecursion (IsExactBehind before (cond_of condition.now)) (rows_in rows.now) }
    ensures { IfOk result (AreTruthsBehind before condition.now (rows_in rows.now)) }
{
    let columns = columns_of(alloc, condition)?;
    let read = rows.copy(alloc)?;
    let scan = Scan::open_behind(alloc, before, read, &columns)?;
    truths_of_tree(alloc, condition, &scan, known)
}

/// The rows of a piece without a mark that pass a condition. Those with one are asked too where it is always exact.
pub fn pass_marked<'a>(
    alloc: Global,
    before: usize,
    condition: &'a CondTree,
    piece: &'a Piece,
    known: &mut KnownTruths<'a>,
) -> Result<StoredRows<'a>, AllocError>
    requires { AllByRecursion (IsExactBehind before (cond_of condition.now)) (live piece.now) }
    ensures { IfOk result (λ p. rows_in p ≡ passing_one before condition.now (live piece.now)) }
{
    let _len = piece.len();
    if is_always_exact(condition) {
        let all = StoredRows::Front(Front::Columns(piece.columns()));
        let truths = truths_behind(alloc, before, condition, &all, known)?;
        return live_true(alloc, truths, piece);
    }
    let rows = live_rows(alloc, piece)?;
    let kept = passing_places(alloc, before, condition, &rows, known)?;
    rows.at(alloc, kept.places())
}
