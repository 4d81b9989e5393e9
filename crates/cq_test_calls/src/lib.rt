//! Calls of the crates by themselves, with ample memory: what a script cannot say, as tests.
//!
//! Nothing stands on this crate. A crate with tests of its own is proved twice, so the tests of all stand here.
#![tactic(auto)]

#[cfg(test)]
mod tests;
