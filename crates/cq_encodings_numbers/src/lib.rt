//! Columns of numbers or days in fewer bits: as offsets from the least of them ([`Packed`]), or as the steps from each to
//! the next ([`Deltas`]).
//!
//! To its callers each form is the list of the values that it was made of. What is known of values without a look at them
//! is their [`Bounds`].
#![tactic(auto)]

mod bounds;
mod deltas;
mod distances;
mod ends;
mod offsets;
mod packed;
mod steps;
#[cfg(test)]
mod tests;

pub use bounds::Bounds;
pub use deltas::Deltas;
pub use packed::Packed;
