//! Scripts from bytes to bytes, as tests of `run`: each prefix of one, and sinks and sources that fail on purpose.
#![tactic(auto)]

mod test_sink;
mod test_source;
#[cfg(test)]
mod tests;

pub use test_sink::{Plan, TestSink};
pub use test_source::TestSource;
