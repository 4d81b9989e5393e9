//! The engine as a model: what each statement may answer in a state and leave, and the output of a script.
//!
//! A step is a relation between a state, a statement, an answer and the next state. The engine and the program are
//! proved against these definitions.
#![tactic(auto)]

mod answer;

pub use answer::Answer;
