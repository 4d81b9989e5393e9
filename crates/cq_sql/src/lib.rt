//! Pieces of a script as statements.
//!
//! [`parse`] answers the tree of a piece exactly where the piece is a sentence within the limits. A list of tokens has at
//! most one tree.
#![tactic(auto)]

mod constants;
mod grammar;
mod joins;
mod later;
mod laws;
mod names;
mod order;
mod query;
mod rows;
mod select_item;
mod sentences;
mod source;
mod table;
mod update;
mod view;

pub use cq_sql_expressions::{SqlFault, expression_of, one_expression};
pub use cq_sql_tokens::{Piece, Pieces, split};
pub use grammar::tree_of;
pub use laws::one_tree;
pub use sentences::parse;
