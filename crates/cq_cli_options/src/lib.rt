//! The command line `colview run SCRIPT [--dir DIR] [--max-rows N]`, read by clap.
//!
//! [`options_of`] gives the values that clap finds in the words, N as a number, or says why there are none.
#![tactic(auto)]

mod command;
mod fault;
mod limit;
mod options;

pub use fault::LineFault;
pub use options::{Options, options_of};
