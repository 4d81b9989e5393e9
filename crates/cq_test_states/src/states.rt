//! What an engine answers and tells, statement by statement.
use cq_binder::bind;
use cq_binder_rules::{Bound, Fault};
use cq_cli::NoSources;
use cq_cli_folder::Folder;
use cq_csvio::{TextFault, print_result};
use cq_engine::{AnswerSource, Engine, Limits};
use cq_model_step::Answer;
use cq_sql::{SqlFault, parse, split};
use cq_sql_language::Statement;
use std::alloc::Global;
use std::io;
use std::io::Write;

/// Carries out each statement of a script that copies files of a folder, and writes its answer and how the views of these
/// names stand.
pub(crate) fn write_states<W: Write>(
    rt: &HostRuntime,
    script: &str,
    folder: &str,
    views: &[String],
    out: &mut W,
) -> io::Result<()> {
    let limits = Limits {
        max_rows: Limits::MAX_ROWS,
    };
    let mut engine = Engine::new(rt.alloc(), limits);
    let written = write_each(rt, &mut engine, script, folder, views, out);
    drop(engine);
    written
}

fn write_each<W: Write>(
    rt: &HostRuntime,
    engine: &mut Engine,
    script: &str,
    folder: &str,
    views: &[String],
    out: &mut W,
) -> io::Result<()> {
    for piece in split(script) {
        if !piece.blank {
            write_piece(rt, engine, piece.text, folder, out)?;
            write_epochs(engine, views, out)?;
        }
    }
    Ok(())
}

fn write_piece<W: Write>(
    rt: &HostRuntime,
    engine: &mut Engine,
    text: &str,
    folder: &str,
    out: &mut W,
) -> io::Result<()> {
    match parse(rt.alloc(), text) {
        Ok(statement) => {
            let written = write_statement(rt, engine, &statement, folder, out);
            drop(statement);
            written
        }
        Err(SqlFault::Memory) => write_fault(Fault::Memory, out),
        Err(SqlFault::Syntax) => write_fault(Fault::Syntax, out),
        Err(SqlFault::LimitExceeded) => write_fault(Fault::LimitExceeded, out),
    }
}

/// Writes where a query is answered from, and then the answer of the statement.
fn write_statement<W: Write>(
    rt: &HostRuntime,
    engine: &mut Engine,
    statement: &Statement,
    folder: &str,
    out: &mut W,
) -> io::Result<()> {
    if let Statement::Select(_) = statement {
        match bind(
            rt.alloc(),
            statement,
            &engine.catalog(),
            &mut NoSources::new(),
        ) {
            Ok(query) => {
                let written = write_source(engine, &query, out);
                drop(query);
                written?;
            }
            Err(fault) => return write_fault(fault, out),
        }
    }
    write_answer(rt.alloc(), carried_out(rt, engine, statement, folder), out)
}

fn write_source<W: Write>(engine: &Engine, query: &Bound, out: &mut W) -> io::Result<()> {
    match engine.answer_source(query) {
        AnswerSource::Tables => writeln!(out, "from what it names"),
        AnswerSource::View(view) => writeln!(out, "from {view}"),
    }
}

/// Gives the engine a statement, where not too many came before.
fn carried_out(
    rt: &HostRuntime,
    engine: &mut Engine,
    statement: &Statement,
    folder: &str,
) -> Result<Answer, Fault> {
    if engine.drawn() < 1_000_000 {
        engine.step(statement, &mut Folder::new(rt, folder))
    } else {
        Err(Fault::LimitExceeded)
    }
}

fn write_answer<W: Write>(
    alloc: Global,
    answer: Result<Answer, Fault>,
    out: &mut W,
) -> io::Result<()> {
    match answer {
        Ok(Answer::Done) => writeln!(out, "ok"),
        Ok(Answer::Count(n)) => writeln!(out, "ok {n}"),
        Ok(Answer::Rows { header, rows }) => {
            match print_result(alloc, header.as_slice(), &rows) {
                Ok(text) => out.write_all(text.as_slice()),
                Err(TextFault::Memory) => write_fault(Fault::Memory, out),
            }
        }
        Err(fault) => write_fault(fault, out),
    }
}

fn write_fault<W: Write>(fault: Fault, out: &mut W) -> io::Result<()> {
    match fault.record() {
        Some(record) => writeln!(out, "error {}{record}", fault.words()),
        None => writeln!(out, "error {}", fault.words()),
    }
}

/// Writes how many writes there were, and how many of them each of these views has taken in.
fn write_epochs<W: Write>(engine: &Engine, views: &[String], out: &mut W) -> io::Result<()> {
    write!(out, "now {} drawn {}", engine.now(), engine.drawn())?;
    for view in views {
        match engine.view_epoch(view.as_str()) {
            Some(epoch) => write!(out, " {view} {epoch}")?,
            None => write!(out, " {view} none")?,
        }
    }
    writeln!(out)
}
