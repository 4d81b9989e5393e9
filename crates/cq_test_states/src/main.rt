//! Carries a script out and prints each answer, and beside it what the engine tells then: which view a query is answered
//! from, how many writes there were, and how many of them each view has taken in.
//!
//! Its words are the script, the folder of the files that the script copies, and the names of views. tools/fail-each runs
//! it with each growth refused in turn.
#![tactic(auto)]

mod states;

use states::write_states;
use std::io::{BufWriter, Write};
use std::process::ExitCode;
use std::{env, fs, io};

fn main(rt: HostRuntime) -> ExitCode {
    match tell_all(&rt) {
        Ok(()) => ExitCode::SUCCESS,
        Err(error) => {
            let _ = eprintln!(rt; "cq_test_states: {error}");
            ExitCode::FAILURE
        }
    }
}

fn tell_all(rt: &HostRuntime) -> io::Result<()> {
    let words: Vec<String> = env::args(rt)?.collect(rt.alloc())?;
    let script = fs::read_to_string(rt, word_at(&words, 1))?;
    let views = words.get(3..).unwrap_or(&[]);
    let mut out = BufWriter::new(rt.alloc(), io::writer(rt))?;
    write_states(rt, script.as_str(), word_at(&words, 2), views, &mut out)?;
    out.flush()
}

/// The word at a place of the command line, and none where it is shorter.
fn word_at(words: &[String], place: usize) -> &str {
    match words.get(place) {
        Some(word) => word.as_str(),
        None => "",
    }
}
