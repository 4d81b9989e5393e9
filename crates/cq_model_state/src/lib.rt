//! The state of the engine as a model: tables and views under their names, and the changes that views still have to
//! take in.
//!
//! Definitions alone. A statement is bound and refused by a state, and a step leads from one to the next.
#![tactic(auto)]
