//! The transcript of a script.
use crate::answers::Answers;
use cq_cli::{Limits, run_program};
use cq_cli_folder::Folder;
use cq_sql::split;
use std::io;
use std::io::Write;

/// Runs a script into memory, with the files of the folder that has its name, and writes this name, each statement with
/// its answer, and the exit status. A script that is not UTF-8 has no statements, but an answer.
pub fn write_transcript<W: Write>(
    rt: &HostRuntime,
    name: &str,
    script: &[u8],
    out: &mut W,
) -> io::Result<()> {
    let limits = Limits {
        max_rows: Limits::MAX_ROWS,
    };
    let mut folder = Folder::new(rt, name);
    let mut answers = Answers::new(rt.alloc());
    let exit = run_program(rt.alloc(), script, limits, &mut folder, &mut answers);
    writeln!(out, "== {name}")?;
    match str::from_utf8(script) {
        Ok(text) => write_statements(text, &answers, out)?,
        Err(_) => out.write_all(answers.taken())?,
    }
    writeln!(out, "status {exit}")
}

fn write_statements<W: Write>(script: &str, answers: &Answers, out: &mut W) -> io::Result<()> {
    let mut begin = 0;
    let mut ends = answers.ends().iter();
    for piece in split(script) {
        if !piece.blank {
            let semicolon = if piece.closed { ";" } else { "" };
            writeln!(out, "{}{semicolon}", piece.text.trim())?;
            let end = ends.next().copied().unwrap_or(begin);
            out.write_all(answers.taken().get(begin..end).unwrap_or(&[]))?;
            begin = end;
        }
    }
    Ok(())
}
