//! Scripts as pieces, and pieces as tokens.
//!
//! [`split`] cuts a script at each semicolon outside texts and comments; [`tokens`] cuts a piece into words, numbers,
//! quoted texts and symbols. Both are the relations of the model: a script has one list of pieces, and a text one list
//! of tokens or none.
#![tactic(auto)]

mod characters;
mod cutting;
mod fault;
mod keywords;
mod laws;
mod limits;
mod pieces;
mod quotes;
mod reading;
mod symbols;
mod words;

pub use fault::TokenFault;
pub use laws::{closed_pieces_fit, one_cut, one_split};
pub use limits::is_past_limits;
pub use pieces::{Piece, Pieces, split};
pub use reading::tokens;
