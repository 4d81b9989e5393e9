//! What views keep: how a query changes with its sources and what that costs, the sides of its joins, and what is kept of
//! groups and shown of them.
//!
//! Definitions alone, for the crates that keep views and for the laws about them.
#![tactic(auto)]
