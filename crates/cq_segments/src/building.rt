//! What a segment is built of.
ghost use Rattle.std.specs.Prelude.{IfOk, length, ◌≡◌, ◌≤◌};
ghost use Rattle.cq_encodings.specs.AnyEncoded.{encoded_values};
ghost use Rattle.cq_encodings_numbers.specs.Bounds.{AreBounds};
ghost use Rattle.cq_segments_pieces.specs.Columns.{AreLong, columns_in, columns_of, encoded_rows};
ghost use Rattle.cq_segments.specs.InOrder.{rows_in_order};
ghost use Rattle.cq_segments_pieces.specs.Marked.{unmarked};
ghost use Rattle.cq_segments_pieces.specs.Pieces.{AreFull, joined};
ghost use Rattle.cq_segments.specs.Segment.{HaveBounds};
ghost use Rattle.cq_vectors.specs.Gathered.{column_of};

use crate::held_bounds::HeldBounds;
use crate::in_order::InOrder;
use cq_encodings::AnyEncoded;
use cq_segments_pieces::{Columns, Piece};
use std::alloc::{AllocError, Global};
use std::rc::Rc;

/// Each column of the rows in the form that is best for it, and the bounds of each.
pub(crate) fn encode_columns(
    alloc: Global,
    rows: &InOrder<'_>,
    width: usize,
) -> Result<(Vec<AnyEncoded>, Vec<HeldBounds>), AllocError>
    ensures values { IfOk result (λ e. columns_in e.0.items ≡ columns_of (rows_in_order rows.now) width) }
    ensures as_many { IfOk result (λ e. length e.1.items ≡ width) }
    ensures bounds { IfOk result (λ e. HaveBounds e.1.items (rows_in_order rows.now)) }
{
    let mut encoded = Vec::new(alloc);
    let mut bounds = Vec::new(alloc);
    for column in 0..width {
        let (form, ends) = encode_column(alloc, rows, column)?;
        encoded.push(form)?;
        bounds.push(ends)?;
    }
    Ok((encoded, bounds))
}

/// One column of the rows in the form that is best for it, and its bounds.
fn encode_column(
    alloc: Global,
    rows: &InOrder<'_>,
    column: usize,
) -> Result<(AnyEncoded, HeldBounds), AllocError>
    ensures values { IfOk result (λ e. encoded_values e.0 ≡ column_of (rows_in_order rows.now) column) }
    ensures bounds { IfOk result (λ e. AreBounds e.1.has_null e.1.ends (column_of (rows_in_order rows.now) column)) }
{
    let values = rows.gather(alloc, column)?;
    values.encode(alloc)
}

/// The rows of encoded columns, 1,024 to a piece. The pieces share the columns.
pub(crate) fn make_pieces(
    alloc: Global,
    encoded: Rc<Vec<AnyEncoded>>,
    len: usize,
) -> Result<Vec<Piece>, AllocError>
    requires few { len ≤ 65536 }
    requires long { AreLong len (columns_in encoded.value.items) }
    ensures rows { IfOk result (λ p. joined p.items ≡ unmarked (encoded_rows encoded.value.items len)) }
    ensures full { IfOk result (λ p. AreFull p.items) }
{
    let mut made = Vec::new(alloc);
    for part in 0..len.div_ceil(1024) {
        let count = (len - 1024 * part).min(1024);
        made.push(Piece::of(Columns::of(encoded.clone()?, part, count)))?;
    }
    Ok(made)
}
