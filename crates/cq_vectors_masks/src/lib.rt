//! Flags and truths of at most 1,024 places, the logic of conditions over them, and the places that still count.
//!
//! To its callers a [`Plane`] is a list of flags, a [`TruthMask`] a list of truths and a [`Selection`] a rising list of
//! places; no clause sees a word of bits.
#![tactic(auto)]

mod mask;
mod place_test;
mod plane;
mod selection;
mod walk;

pub use mask::TruthMask;
pub use place_test::{PlaceTest, WordTest};
pub use plane::{Plane, answers};
pub use selection::{Selection, keep_true};
