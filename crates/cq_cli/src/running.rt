//! Scripts from bytes to bytes.
ghost use Rattle.std.specs.Prelude.{◌≡◌, ◌<◌, ◌+◌, ◌-◌, ◌^◌, ◌∷◌, [], OnOk, length, true};
ghost use Rattle.cq_model_step.specs.Output.{source_failures};
ghost use Rattle.cq_cli.specs.Printing.{Tells};
ghost use Rattle.cq_cli.specs.Running.{Answers, AnswersPiece, PieceMayLackMemory};
ghost use Rattle.cq_cli.specs.Writing.{flushes_after};

use crate::endings::{RunFault, Status};
use crate::printing::{Printed, print, shown};
use crate::sink::Sink;
use cq_binder_rules::Fault;
use cq_engine::{Engine, Limits, Sources};
use cq_model_step::Answer;
use cq_sql::{Piece, SqlFault, parse, split};
use cq_sql_tokens::closed_pieces_fit;
use std::alloc::Global;

/// What a piece is answered with.
fn answer<S: Sources>(
    alloc: Global,
    engine: &mut Engine,
    piece: &Piece<'_>,
    sources: &mut S,
) -> Result<Answer, Fault>
    requires drawn { piece.now.closed ≡ true → engine.old.state.drawn < 2 ^ 64 - 1 }
    requires failures { piece.now.closed ≡ true → S.failures sources.old < 2 ^ 64 - 1 }
    ensures served { AnswersPiece (S.files sources.old) engine.old piece.now result engine.new }
    ensures memory { PieceMayLackMemory (S.files sources.old) engine.old piece.now result engine.new }
    ensures files { S.files sources.new ≡ S.files sources.old }
    ensures failures { S.failures sources.new ≡ S.failures sources.old + source_failures (result ∷ []) }
{
    if !piece.closed {
        return Err(Fault::Syntax);
    }
    match parse(alloc, piece.text) {
        Ok(statement) => {
            let answer = engine.step(&statement, sources);
            drop(statement);
            answer
        }
        Err(SqlFault::Memory) => Err(Fault::Memory),
        Err(SqlFault::Syntax) => Err(Fault::Syntax),
        Err(SqlFault::LimitExceeded) => Err(Fault::LimitExceeded),
    }
}

/// Writes what a piece was answered with.
fn tell<K: Sink>(
    alloc: Global,
    outcome: Result<Answer, Fault>,
    out: &mut K,
) -> Result<Status, RunFault>
    requires { K.failures out.old < 2 ^ 64 - 1 }
    ensures told { Tells outcome K.Sink out.old out.new result }
    ensures flushes { K.flushes out.new ≡ K.flushes out.old }
{
    let printed = shown(alloc, outcome);
    let told = print(out, &printed);
    drop(printed);
    told
}

/// Answers the pieces of a text one after the other.
fn run_text<S: Sources, K: Sink>(
    alloc: Global,
    script: &str,
    limits: Limits,
    from: &mut S,
    out: &mut K,
) -> Result<Status, RunFault>
    requires out { K.failures out.old < 2 ^ 64 - 1 }
    requires sources { S.failures from.old + length script.now < 2 ^ 64 }
    ensures ran { Answers limits script.now K.Sink out.old out.new S.Sources from.old from.new result }
    ensures flushes { K.flushes out.new ≡ K.flushes out.old }
    ensures files { S.files from.new ≡ S.files from.old }
{
    closed_pieces_fit();
    let mut engine = Engine::new(alloc, limits);
    let mut status = Status::AllAccepted;
    let mut pieces = split(script);
    while let Some(piece) = pieces.next() {
        if !piece.blank {
            let outcome = answer(alloc, &mut engine, &piece, from);
            match tell(alloc, outcome, out) {
                Ok(served) => status = status.and(served),
                Err(fault) => {
                    drop(engine);
                    return Err(fault);
                }
            }
        }
    }
    drop(engine);
    Ok(status)
}

/// Answers the bytes of a script.
fn run_bytes<S: Sources, K: Sink>(
    alloc: Global,
    script: &[u8],
    limits: Limits,
    from: &mut S,
    out: &mut K,
) -> Result<Status, RunFault>
    requires out { K.failures out.old < 2 ^ 64 - 1 }
    requires sources { S.failures from.old + length script.now < 2 ^ 64 }
    ensures ran { Answers limits script.now K.Sink out.old out.new S.Sources from.old from.new result }
    ensures flushes { K.flushes out.new ≡ K.flushes out.old }
    ensures files { S.files from.new ≡ S.files from.old }
{
    match str::from_utf8(script) {
        Ok(text) => run_text(alloc, text, limits, from, out),
        Err(_) => print(out, &Printed::Refused(Fault::NotUtf8)),
    }
}

/// Runs a script: writes the answer of each statement before the next one runs, and flushes once at the end. After the
/// first failure nothing more is put or flushed.
pub fn run<S: Sources, K: Sink>(
    alloc: Global,
    script: &[u8],
    limits: Limits,
    from: &mut S,
    out: &mut K,
) -> Result<Status, RunFault>
    requires out { K.failures out.old < 2 ^ 64 - 1 }
    requires sources { S.failures from.old + length script.now < 2 ^ 64 }
    ensures ran { Answers limits script.now K.Sink out.old out.new S.Sources from.old from.new result }
    ensures flushed { OnOk result (K.is_flushed out.new ≡ true) }
    ensures once { K.flushes out.new ≡ flushes_after result (K.flushes out.old) }
    ensures files { S.files from.new ≡ S.files from.old }
{
    let status = run_bytes(alloc, script, limits, from, out)?;
    match out.flush() {
        Ok(()) => Ok(status),
        Err(_) => Err(RunFault::Output),
    }
}
