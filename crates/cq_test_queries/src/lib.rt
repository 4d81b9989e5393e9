//! Queries that are opened and given step by step, to their ends and behind them, as tests.
//!
//! Nothing stands on this crate. A crate with tests of its own is proved twice, so the tests of `Exec::next` stand here.
#![tactic(auto)]

#[cfg(test)]
mod tests;
