//! Loops over lanes of one width, and how a mask is set where values are known.
//!
//! A test of a word is made of tests of sixteen or four places by [`word_by_lanes`]. [`set_known_by`] gives a mask the
//! answers of a test, and Unknown where a value is NULL.
#![tactic(auto)]

mod equal_offsets;
mod known;
mod lane_test;
mod offset;
mod offset_test;
mod offsets_up_to;

pub use equal_offsets::{set_equal_8, set_equal_16, set_equal_32};
pub use known::{set_known_by, set_never};
pub use lane_test::{LaneTest, word_by_lanes};
pub use offset::Offset;
pub use offsets_up_to::{set_up_to_8, set_up_to_16, set_up_to_32};
