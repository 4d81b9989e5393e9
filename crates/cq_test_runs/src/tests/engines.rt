//! An engine that is given statements by their texts.
ghost use Rattle.std.specs.Prelude.{◌<◌};

use cq_binder_rules::Fault;
use cq_cli::NoSources;
use cq_engine::{Engine, Limits};
use cq_model_step::Answer;
use cq_sql::{SqlFault, parse};
use std::alloc::Global;
use std::process::Abort;
use std::test::Fail;

pub(crate) fn engine(alloc: Global) -> Result<Engine, Fail> {
    let limits = Limits::new(Limits::MAX_ROWS).ok_or("in range")?;
    Ok(Engine::new(alloc, limits))
}

/// Reads one statement and carries it out.
pub(crate) fn carry_out(
    rt: &impl Abort,
    alloc: Global,
    engine: &mut Engine,
    text: &str,
) -> Result<Answer, Fault> {
    assert!(rt; engine.drawn() < 1000);
    match parse(alloc, text) {
        Ok(statement) => {
            let answer = engine.step(&statement, &mut NoSources::new());
            drop(statement);
            answer
        }
        Err(SqlFault::Memory) => Err(Fault::Memory),
        Err(_) => Err(Fault::Syntax),
    }
}
