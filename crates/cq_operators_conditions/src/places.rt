//! Where the rows of a segment stand that pass conditions of their own.
ghost use Rattle.std.specs.Prelude.{◌≡◌, ◌-◌, ◌++◌, ◌+◌, IfOk, OnOk, length, map};
ghost use Rattle.cq_encodings_vectors.specs.Places.{AreBelow};
ghost use Rattle.cq_operators_conditions.specs.Passing.{ArePassed, ArePassedAt, CanAllPass, passing_rows};
ghost use Rattle.cq_segments_pieces.specs.Marked.{live};

use crate::skipping::is_missed;
use cq_encodings_vectors::copies_at;
use cq_model::CondTree;
use cq_operators_scans::{Scan, passing_places};
use cq_prims::KnownTruths;
use cq_segments::Segment;
use cq_segments_pieces::Piece;
use cq_table_columns::Front;
use cq_table_positions::{StoredRows, live_rows};
use std::alloc::{AllocError, Global};

/// The places of the rows without a mark that pass all conditions, rising. In these the values of a row stand behind so
/// many others.
pub(crate) fn segment_passing<'a>(
    alloc: Global,
    before: usize,
    conditions: &[&'a CondTree],
    segment: &'a Segment,
    known: &mut KnownTruths<'a>,
) -> Result<Vec<u16>, AllocError>
    requires { CanAllPass before conditions.now (live segment.now) }
    ensures there { IfOk result (λ p. AreBelow (length segment.now) p.items) }
    ensures passed { IfOk result (λ p. ArePassedAt before conditions.now segment.now p.items) }
{
    let _len = segment.len();
    let mut passing: Vec<u16> = Vec::new(alloc);
    let mut start = 0;
    for piece in segment.pieces() {
        let (_, places) = piece_passing(alloc, before, conditions, piece, known)?;
        append_from(start, places.as_slice(), &mut passing)?;
        start += piece.len();
    }
    Ok(passing)
}

/// The rows of a piece that pass all conditions as a scan, and where they stand in the piece, rising. What is known of
/// texts that fit patterns is kept for the next piece.
pub fn scan_piece<'a>(
    alloc: Global,
    conditions: &[&'a CondTree],
    piece: &'a Piece,
    known: &mut KnownTruths<'a>,
) -> Result<(Scan<'a>, Vec<u16>), AllocError>
    requires { CanAllPass 0 conditions.now (live piece.now) }
    ensures scan { IfOk result (λ r. r.0 ≡ passing_rows 0 conditions.now (live piece.now)) }
    ensures there { IfOk result (λ r. AreBelow (length piece.now) r.1.items) }
    ensures passed { IfOk result (λ r. ArePassedAt 0 conditions.now piece.now r.1.items) }
{
    let _len = piece.len();
    let (passed, places) = piece_passing(alloc, 0, conditions, piece, known)?;
    let scan = Scan::open_stored(alloc, passed, &[])?;
    Ok((scan, places))
}

/// The rows of a piece that pass all conditions, and where they stand there: each condition is asked of the rows that
/// the ones before it left.
fn piece_passing<'a>(
    alloc: Global,
    before: usize,
    conditions: &[&'a CondTree],
    piece: &'a Piece,
    known: &mut KnownTruths<'a>,
) -> Result<(StoredRows<'a>, Vec<u16>), AllocError>
    requires { CanAllPass before conditions.now (live piece.now) }
    ensures rows { IfOk result (λ r. ArePassed before conditions.now (live piece.now) r.0) }
    ensures there { IfOk result (λ r. AreBelow (length piece.now) r.1.items) }
    ensures passed { IfOk result (λ r. ArePassedAt before conditions.now piece.now r.1.items) }
{
    let front = Front::of_piece(piece);
    if is_missed(before, conditions, &front) {
        return Ok((StoredRows::Listed(Vec::new(alloc)), Vec::new(alloc)));
    }
    let mut passed = live_rows(alloc, piece)?;
    let mut places = piece.live_places(alloc)?;
    for condition in conditions {
        let kept = passing_places(alloc, before, *condition, &passed, known)?;
        passed = passed.at(alloc, kept.places())?;
        places = copies_at(alloc, places.as_slice(), kept.places())?;
    }
    Ok((passed, places))
}

/// Places that are counted from a start on, behind others.
pub fn append_from(start: usize, places: &[u16], all: &mut Vec<u16>) -> Result<(), AllocError>
    requires { AreBelow (65536 - start) places.now }
    ensures { OnOk result (all.new.items ≡ all.old.items ++ map (λ p. start + p) places.now) }
{
    all.reserve(places.len())?;
    for place in places {
        all.push_reserved((start + usize::from(*place)) as u16);
    }
    Ok(())
}
