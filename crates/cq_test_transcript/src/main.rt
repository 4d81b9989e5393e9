//! Runs each script of the current folder, in the order of their names, and prints what each statement is answered with.
//! The files that a script copies lie in a folder that has its name.
#![tactic(auto)]

mod answers;
mod transcript;

use std::io::{BufWriter, Write};
use std::process::ExitCode;
use std::{fs, io};
use transcript::write_transcript;

fn main(rt: HostRuntime) -> ExitCode {
    match print_all(&rt) {
        Ok(()) => ExitCode::SUCCESS,
        Err(error) => {
            let _ = eprintln!(rt; "cq_test_transcript: {error}");
            ExitCode::FAILURE
        }
    }
}

fn print_all(rt: &HostRuntime) -> io::Result<()> {
    let mut out = BufWriter::new(rt.alloc(), io::writer(rt))?;
    for name in names(rt)?.iter() {
        let script = fs::read(rt, name.as_str())?;
        let title = name.strip_suffix(".sql").unwrap_or(name.as_str());
        write_transcript(rt, title, script.as_slice(), &mut out)?;
    }
    out.flush()
}

/// The names of the scripts, sorted by their bytes.
fn names(rt: &HostRuntime) -> io::Result<Vec<String>> {
    let mut names = Vec::new(rt.alloc());
    for entry in fs::read_dir(rt, ".")? {
        let entry = entry?;
        if entry.file_name().ends_with(".sql") {
            names.push(String::from_str(rt.alloc(), entry.file_name())?)?;
        }
    }
    names.sort()?;
    Ok(names)
}
