//! Tables from files: the records of a file, as `csv` reads them, as rows of a table.
//!
//! [`read_rows`] gives the rows of a file or the refusal of its first bad field, as the walk of COPY defines them.
#![tactic(auto)]

mod field;
mod laws;
mod number;
mod reading;
mod records;
mod wanting;

pub use laws::{printed_rows_read_back, read_rows_fit};
pub use reading::read_rows;
