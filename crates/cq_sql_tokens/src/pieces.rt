//! A script as pieces.
//!
//! [`split`] begins, and each `next` of [`Pieces`] cuts the piece at the front off; behind the last one it answers
//! none. A piece is lent from the script: no byte is copied, and each is read once, as the piece is cut that it stands
//! in.
ghost use Rattle.std.specs.Option.{option_map};
ghost use Rattle.std.specs.Iterator.{YieldsFirstBy, item_count};
ghost use Rattle.cq_sql_language.specs.Pieces.{HasPieces};
ghost use Rattle.cq_sql_tokens.specs.Piece.{BeginsWith, piece_of};

use crate::cutting::first_cut;
use std::marker::Model;

/// A piece of a script, without its semicolon.
#[derive(Clone, Copy, Debug)]
pub struct Piece<'a> {
    pub text: &'a str,
    /// Whether a semicolon ended it.
    pub closed: bool,
    /// Whether it is blanks and comments alone.
    pub blank: bool,
}

/// The pieces of what is left of a script.
#[derive(Drop)]
pub struct Pieces<'a> {
    rest: Option<&'a str>,
}

impl<'a> Model for Pieces<'a> {
    ghost use Rattle.std.specs.Prelude.{List};
    ghost use Rattle.std.specs.Option.{option_map};
    ghost use Rattle.cq_sql_language.specs.Pieces.{PieceOf};
    ghost use Rattle.cq_sql_tokens.specs.Cutting.{pieces_left};

    ghost Value = { List PieceOf };

    ghost view = { λ pieces. pieces_left (option_map (λ text. text.now) pieces.rest) };
}

/// Cuts a script at each semicolon outside texts and comments. Takes no memory.
pub fn split(script: &str) -> Pieces<'_>
    ensures { HasPieces script.now result }
{
    Pieces { rest: Some(script) }
}

impl<'a> Iterator for Pieces<'a> {
    type Item = Piece<'a>;

    ghost next_gives = { YieldsFirstBy piece_of (λ pieces. pieces) };

    ghost remaining = { item_count (λ pieces. pieces) };

    fn next(&mut self) -> Option<Piece<'a>> {
        let (piece, rest) = first_piece(self.rest?);
        self.rest = rest;
        Some(piece)
    }
}

fn first_piece(text: &str) -> (Piece<'_>, Option<&str>)
    ensures { BeginsWith text.now result.0 (option_map (λ rest. rest.now) result.1) }
{
    let cut = first_cut(text.as_bytes());
    if cut.end < text.len() {
        let piece = Piece {
            text: &text[..cut.end],
            closed: true,
            blank: cut.blank,
        };
        (piece, Some(&text[cut.end + 1..]))
    } else {
        let piece = Piece {
            text,
            closed: false,
            blank: cut.blank,
        };
        (piece, None)
    }
}
