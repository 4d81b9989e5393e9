//! What a script cannot say: each prefix of one, sinks and sources of the test, calls of the engine, and growths that are
//! refused.
mod answer_sources;
mod endings;
mod engine_calls;
mod engines;
mod prefixes;
mod refused_growths;
mod refused_writes;
mod sinks;
mod sources;

use crate::test_sink::{Plan, TestSink};
use cq_cli::{NoSources, exit_of, run};
use cq_engine::Limits;
use std::alloc::Global;

/// The exit status of a run over a sink of this plan, and the sink.
fn ended(alloc: Global, script: &[u8], plan: Plan) -> (u8, TestSink) {
    let mut sink = TestSink::new(alloc, plan);
    let Some(limits) = Limits::new(Limits::MAX_ROWS) else {
        return (2, sink);
    };
    let result = run(alloc, script, limits, &mut NoSources::new(), &mut sink);
    (exit_of(&result), sink)
}
