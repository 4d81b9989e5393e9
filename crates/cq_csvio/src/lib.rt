//! Results as text: the count of the rows, the header and the rows as CSV.
//!
//! The lines are written by `csv`'s writer, one for the whole result. What [`print_result`] gives is the text of the
//! result as the model defines it, `rows_text`.
#![tactic(auto)]

mod fault;
mod fields;
mod lines;
mod result;

pub use fault::TextFault;
pub use result::print_result;
