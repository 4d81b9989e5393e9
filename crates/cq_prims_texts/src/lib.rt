//! Conditions over vectors of texts: whether a text is another, stands before it, or fits a pattern.
//!
//! To its callers a [`TextSide`] is the list of the bytes of its texts, and [`EqualTexts`] and [`LessTexts`] test two such
//! sides. [`compare_entries`] and [`like`] give the list of the truths that the conditions have of the values. Where
//! a condition was asked of entries, [`set_named`] gives their truths to the places that name them.
#![tactic(auto)]

mod by_codes;
mod by_entries;
mod coded_fits;
mod entry_tests;
mod equal_texts;
mod fits_test;
mod fits_texts;
mod having_texts;
mod known_truths;
mod less_texts;
mod likes;
mod named;
mod named_tests;
mod no_text_test;
mod plain_texts;
mod run_fits;
mod text_side;
mod told_truths;

pub use by_entries::compare_entries;
pub use equal_texts::EqualTexts;
pub use known_truths::{KnownTruths, compare_known, like_known};
pub use less_texts::LessTexts;
pub use likes::like;
pub use named::{Naming, set_named};
pub use text_side::TextSide;
