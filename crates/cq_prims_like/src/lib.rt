//! Patterns of LIKE, read once for many texts.
//!
//! A [`Pattern`] is its bytes to its callers, and [`Pattern::fits`] tells whether it fits a text. In what form it is kept is
//! seen in this crate alone. Where a text has to have a run of bytes to fit, [`Pattern::sought`] gives the pattern by that
//! run. [`first_places`] seeks it in 64 texts at once, and [`Sought::answers`] in 64 that stand one behind the other.
#![tactic(auto)]

mod around;
mod laid;
mod pattern;
mod pieces;
mod places;
mod sought;

pub use laid::first_places;
pub use pattern::{Pattern, begins};
pub use sought::Sought;
