//! Where the rows of pieces stand.
ghost use Rattle.std.specs.Prelude.{drop, length, ◌<◌, ◌^◌, ◌≡◌};
ghost use Rattle.cq_segments_pieces.specs.Pieces.{joined};
ghost use Rattle.cq_writestore.specs.Spots.{IsSpot};
ghost use Rattle.cq_writestore_rows.specs.NewRows.{AreWhole};

use cq_segments_pieces::Piece;

/// Where a row stands that comes at some place.
pub(crate) enum Spot {
    /// In a piece, at a place there.
    InPiece(usize, usize),
    /// So far behind the rows of all pieces.
    Behind(usize),
}

/// Where the row at a place stands.
pub(crate) fn spot_of(pieces: &[Piece], place: usize) -> Spot
    requires { AreWhole (drop 1 pieces.now) }
    ensures { IsSpot pieces.now place result }
{
    let count = pieces.len();
    if count == 0 {
        return Spot::Behind(place);
    }
    let first = pieces[0].len();
    if place < first {
        return Spot::InPiece(0, place);
    }
    let behind = place - first;
    let last = count - 1;
    if behind / 1024 < last {
        Spot::InPiece(behind / 1024 + 1, behind % 1024)
    } else {
        Spot::Behind(behind - 1024 * last)
    }
}

/// How many rows they have.
pub(crate) fn rows_in(pieces: &[Piece]) -> usize
    requires whole { AreWhole (drop 1 pieces.now) }
    requires few { length (joined pieces.now) < 2 ^ 64 }
    ensures { result ≡ length (joined pieces.now) }
{
    let count = pieces.len();
    if count == 0 {
        return 0;
    }
    pieces[0].len() + 1024 * (count - 1)
}
