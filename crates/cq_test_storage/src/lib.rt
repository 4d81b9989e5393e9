//! Calls of the crates that store rows, segments, the write store and tables, each by itself, as tests.
//!
//! Nothing stands on this crate. A crate with tests of its own is proved twice, so the tests of all stand here.
#![tactic(auto)]

#[cfg(test)]
mod tests;
