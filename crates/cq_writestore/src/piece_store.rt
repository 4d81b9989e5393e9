//! The older rows of a write store, in pieces.
//!
//! Each piece but the first has 1,024 rows, so a row is found in some steps. `take_front` drops whole pieces and cuts the
//! next one; it costs a step a piece, and the rows that it cuts.
ghost use Rattle.std.specs.Prelude.{OnErr, OnOk, [], drop, length, ◌++◌, ◌+◌, ◌<◌, ◌^◌, ◌≡◌, ◌≤◌};
ghost use Rattle.cq_segments_pieces.specs.Marked.{marked_count, with_mark};
ghost use Rattle.cq_segments_pieces.specs.Pieces.{joined};
ghost use Rattle.cq_writestore_rows.specs.NewRows.{AreWhole};

use crate::spot::{Spot, spot_of};
use cq_segments_pieces::Piece;
use std::alloc::{AllocError, Global};
use std::marker::Model;

/// Rows in order of insertion, each with its mark.
#[derive(Drop)]
pub(crate) struct PieceStore {
    pieces: Vec<Piece>,
    len: usize,
    marked: usize,
}

impl Model for PieceStore {
    ghost use Rattle.std.specs.Prelude.{List};
    ghost use Rattle.cq_segments_pieces.specs.Marked.{MarkedRow};
    ghost use Rattle.cq_segments_pieces.specs.Pieces.{joined};
    ghost use Rattle.cq_writestore.specs.Spots.{AreHeld};

    ghost Value = { List MarkedRow };

    ghost view = { λ s. joined s.pieces.items };

    ghost invariant = { λ s. AreHeld s.pieces.items s.len s.marked };
}

impl PieceStore {
    pub(crate) fn new(alloc: Global) -> PieceStore
        ensures { result ≡ [] }
    {
        PieceStore {
            pieces: Vec::new(alloc),
            len: 0,
            marked: 0,
        }
    }

    pub(crate) fn len(&self) -> usize
        ensures { result ≡ length self.now }
    {
        self.len
    }

    /// How many rows have a mark.
    pub(crate) fn marked_len(&self) -> usize
        ensures len { result ≡ marked_count self.now }
        ensures few { result ≤ length self.now }
    {
        self.marked
    }

    /// The rows, where they are stored.
    pub(crate) fn pieces(&self) -> &[Piece]
        ensures rows { joined result.now ≡ self.now }
        ensures whole { AreWhole (drop 1 result.now) }
    {
        self.pieces.as_slice()
    }

    /// Marks a row. One that has a mark keeps it.
    pub(crate) fn mark(&mut self, place: usize)
        requires { place < length self.old }
        ensures { self.new ≡ with_mark place self.old }
    {
        let _len = self.len;
        match spot_of(self.pieces.as_slice(), place) {
            Spot::InPiece(piece, at) => if !self.pieces[piece].is_marked(at) {
                self.pieces[piece].mark(at);
                self.marked += 1;
            },
            Spot::Behind(_) => {}
        }
    }

    /// Drops the first rows, those with a mark too, and all where they are fewer.
    pub(crate) fn take_front(&mut self, count: usize)
        ensures { self.new ≡ drop count self.old }
    {
        let len = self.len;
        drop_front(&mut self.pieces, count);
        self.len = len.saturating_sub(count);
        self.marked = marks_in(self.pieces.as_slice());
    }

    /// Puts pieces behind the others, or none.
    pub(crate) fn append(&mut self, made: Vec<Piece>) -> Result<(), AllocError>
        requires whole { AreWhole made.items }
        requires small { length self.old + length (joined made.items) < 2 ^ 63 }
        ensures ok { OnOk result (self.new ≡ self.old ++ joined made.items) }
        ensures err { OnErr result (self.new ≡ self.old) }
    {
        let mut made = made;
        let more = 1024 * made.len();
        self.pieces.append(&mut made)?;
        self.len += more;
        self.marked = marks_in(self.pieces.as_slice());
        Ok(())
    }
}

/// Drops the first rows of pieces, and all where they are fewer.
fn drop_front(pieces: &mut Vec<Piece>, count: usize)
    requires { AreWhole (drop 1 pieces.old.items) }
    ensures rows { joined pieces.new.items ≡ drop count (joined pieces.old.items) }
    ensures whole { AreWhole (drop 1 pieces.new.items) }
{
    match spot_of(pieces.as_slice(), count) {
        Spot::InPiece(gone, cut) => {
            let left = pieces.len() - gone;
            pieces.rotate_left(gone);
            pieces.truncate(left);
            pieces[0].cut_front(cut);
        }
        Spot::Behind(_) => pieces.clear(),
    }
}

/// How many rows of pieces have a mark.
fn marks_in(pieces: &[Piece]) -> usize
    requires { length (joined pieces.now) < 2 ^ 64 }
    ensures { result ≡ marked_count (joined pieces.now) }
{
    let mut count = 0;
    for piece in pieces {
        count += piece.marked_len();
    }
    count
}
