//! The program `colview`: runs a script and writes its answers to standard output.
#![tactic(auto)]

use cq_cli::{Limits, Writer, run_program};
use cq_cli_folder::Folder;
use cq_cli_options::{LineFault, Options, options_of};
use std::io::BufWriter;
use std::process::ExitCode;
use std::{env, fs, io};

/// The exit status where the output failed or nothing was run.
const STOPPED: u8 = 3;

fn main(rt: HostRuntime) -> ExitCode {
    ExitCode::from(status(&rt))
}

fn status(rt: &HostRuntime) -> u8 {
    let options = match options(rt) {
        Ok(options) => options,
        Err(fault) => return told(rt, &fault),
    };
    match fs::read(rt, options.script.as_str()) {
        Ok(script) => run_script(rt, script.as_slice(), &options),
        Err(_) => stopped(rt, "cannot read script"),
    }
}

/// Reads the words of the command line.
fn options(rt: &HostRuntime) -> Result<Options, LineFault> {
    let args = env::args(rt).or_else(|error| refused(rt, &error))?;
    let words: Vec<String> = args.collect(rt.alloc())?;
    let words: Vec<&str> = words.iter().map(|word| word.as_str()).collect(rt.alloc())?;
    options_of(rt.alloc(), words.as_slice())
}

/// What is told where the words cannot be had.
fn refused<T>(rt: &HostRuntime, error: &io::Error) -> Result<T, LineFault> {
    match error.kind() {
        io::ErrorKind::OutOfMemory => Err(LineFault::Memory),
        _ => {
            let text = "error: a word of the command line is not UTF-8\n";
            Err(LineFault::Refused(text.to_string(rt.alloc())?))
        }
    }
}

/// Tells why there is nothing to run.
fn told(rt: &HostRuntime, fault: &LineFault) -> u8 {
    let printed = match fault {
        LineFault::Help(text) => print!(rt; "{text}"),
        LineFault::Refused(text) => eprint!(rt; "{text}"),
        LineFault::Memory => return stopped(rt, "out of memory"),
    };
    match printed {
        Ok(()) => fault.exit(),
        Err(_) => stopped(rt, "output failed"),
    }
}

/// Runs the script. After a failed write nothing more is written, also not what the buffer still holds.
fn run_script(rt: &HostRuntime, script: &[u8], options: &Options) -> u8 {
    let Ok(buffer) = BufWriter::new(rt.alloc(), io::writer(rt)) else {
        return stopped(rt, "out of memory");
    };
    let mut out = Writer::new(buffer);
    // The command line takes no other number than a limit.
    let Some(limits) = Limits::new(options.max_rows) else {
        return stopped(rt, "no such limit");
    };
    let mut folder = Folder::new(rt, options.dir.as_str());
    let exit = run_program(rt.alloc(), script, limits, &mut folder, &mut out);
    drop(out.into_inner().into_parts());
    if exit == STOPPED {
        return stopped(rt, "output failed");
    }
    exit
}

/// Says on standard error why the program stopped. Where that fails there is nowhere left to say it.
fn stopped(rt: &HostRuntime, why: &str) -> u8 {
    let _ = eprintln!(rt; "colview: {why}");
    STOPPED
}
