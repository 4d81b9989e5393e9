//! Carries scripts out on an engine and, beside it, by the plain evaluator over lists of rows, and tells for each how many
//! queries both answered alike, and how many of them the engine answered from a view with their core, as it should. Views
//! are kept by the engine and worked out anew beside it: behind each statement every view is compared with its query on the
//! tables as they were at the epoch that it stands at. How many such epochs views came to is told, and how many of them
//! were below the present.
#![tactic(auto)]

mod answers;
mod compared;
mod core_text;
mod counts;
mod difference;
mod plain_engine;
mod plain_table;
mod plain_view;
mod standing;

use compared::compare;
use std::io::{BufWriter, Write};
use std::process::ExitCode;
use std::{fs, io};

const SCRIPTS: [&str; 12] = [
    "conditions.sql",
    "cores.sql",
    "distinct-counts.sql",
    "groups.sql",
    "joins.sql",
    "joined-views.sql",
    "long-tables.sql",
    "movers.sql",
    "self-joined-views.sql",
    "standing-views.sql",
    "views.sql",
    "waiting-views.sql",
];

fn main(rt: HostRuntime) -> ExitCode {
    match compare_all(&rt) {
        Ok(true) => ExitCode::SUCCESS,
        Ok(false) => ExitCode::FAILURE,
        Err(error) => {
            let _ = eprintln!(rt; "cq_test_random: {error}");
            ExitCode::FAILURE
        }
    }
}

/// Whether no script showed a difference. Each is told in a line.
fn compare_all(rt: &HostRuntime) -> io::Result<bool> {
    let mut out = BufWriter::new(rt.alloc(), io::writer(rt))?;
    let mut is_alike = true;
    for name in &SCRIPTS {
        let script = fs::read_to_string(rt, name)?;
        match compare(rt.alloc(), script.as_str()) {
            Ok(counts) => writeln!(
                out,
                "{name}: {} queries answered alike, {} of them from views, views at {} epochs, {} of these below the present",
                counts.queries, counts.from_views, counts.epochs, counts.earlier
            )?,
            Err((statement, difference)) => {
                is_alike = false;
                writeln!(out, "{name}: {difference}: {}", statement.trim())?;
            }
        }
    }
    out.flush()?;
    Ok(is_alike)
}
