//! Calls of the crates that work on batches of rows, each by itself, at the lengths where words and batches end, as tests.
//!
//! Nothing stands on this crate. A crate with tests of its own is proved twice, so the tests of all stand here.
#![tactic(auto)]

#[cfg(test)]
mod tests;
