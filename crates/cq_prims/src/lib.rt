//! Conditions over vectors: comparisons, IS NULL and LIKE, which set the truth of each place in a mask that is lent.
//!
//! To its callers [`compare`], [`is_null`] and [`like`] give the list of the truths that the conditions have of the values.
//! Where a condition was asked of entries, [`dict_mask`] gives their truths to the places that name them.
#![tactic(auto)]

mod comparisons;
mod day_side;
mod equal_days;
mod equal_numbers;
mod equal_wide;
mod lent_test;
mod less_days;
mod less_numbers;
mod less_wide;
mod named;
mod narrow_compare;
mod narrow_side;
mod null_test;
mod nulls;
mod number_side;
mod sides;
mod wide_side;

pub use comparisons::{compare, turned};
pub use cq_prims_texts::{KnownTruths, compare_known, like, like_known};
pub use named::dict_mask;
pub use nulls::is_null;
