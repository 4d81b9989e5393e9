//! What the program does with a script.
ghost use Rattle.std.specs.Prelude.{◌≡◌, ◌<◌, ◌+◌, ◌-◌, ◌^◌, length};
ghost use Rattle.cq_cli.specs.Running.{EndsRun};

use crate::endings::exit_of;
use crate::running::run;
use crate::sink::Sink;
use cq_engine::{Limits, Sources};
use std::alloc::Global;

/// Runs the whole script, and tells the exit status of the program: 0 where every statement was accepted, 1 where some
/// were refused, 3 where the sink failed.
pub fn run_program<S: Sources, K: Sink>(
    alloc: Global,
    script: &[u8],
    limits: Limits,
    from: &mut S,
    out: &mut K,
) -> u8
    requires out { K.failures out.old < 2 ^ 64 - 1 }
    requires sources { S.failures from.old + length script.now < 2 ^ 64 }
    ensures ends { EndsRun limits script.now K.Sink out.old out.new S.Sources from.old from.new result }
    ensures files { S.files from.new ≡ S.files from.old }
{
    exit_of(&run(alloc, script, limits, from, out))
}
