//! The rows of a whole source that conditions keep, and the segments and pieces that have none of them.
//!
//! A source is read 1,024 rows at a time. To its callers [`kept_places`] gives where the rows stand that WHERE keeps,
//! and [`passing`], [`scan_passing`] and [`scan_piece`] the rows that pass what a query asks of their source alone.
//! By [`split_missed`] and [`split_unkept`] a reader goes past a segment that has no such row.
#![tactic(auto)]

mod keeping;
mod lent;
mod passed;
mod places;
mod skipping;

pub use keeping::kept_places;
pub use passed::{passing, scan_passing};
pub use places::{append_from, scan_piece};
pub use skipping::{is_unkept, split_missed, split_unkept};
