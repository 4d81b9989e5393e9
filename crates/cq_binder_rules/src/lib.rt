//! What a statement says in a state: its command with names resolved, or its refusal.
//!
//! Which refusal a statement gets is the first of the checks that are walked through.
#![tactic(auto)]

mod bound;
mod fault;
mod sources;
mod typing;

pub use bound::Bound;
pub use fault::Fault;
pub use sources::{SourceFault, Sources};
pub use typing::{Kind, Typing};
