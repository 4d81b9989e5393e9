//! Expressions and conditions in a row: [`eval_row`] and [`holds_row`], and how large what they work out can be.
#![tactic(auto)]

mod eval;
mod keeping;
mod pattern;
mod rows;
mod truth;
mod width;

pub use eval::{eval_row, limit_holds, narrow_is_exact};
pub use keeping::keeps;
pub use pattern::{like, like_decides};
pub use rows::{items_of, key_of};
pub use truth::{compare, holds_row};
pub use width::{fits, part_limit, value_size, width_of};
