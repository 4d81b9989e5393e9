//! The command line, as clap reads and explains it.
ghost use Rattle.std.specs.Prelude.{◌≡◌, IfOk};
ghost use Rattle.clap.specs.Words.{app_of, rule_of};
ghost use Rattle.cq_cli_options.specs.Line.{colview, dir, max_rows, run, script};

use crate::limit::MOST;
use clap::builder::ValueParser;
use clap::{Arg, Command};
use std::alloc::{AllocError, Global};

const ABOUT: &str = "A column query engine: runs a script of SQL statements and prints the answers";

const RUN: &str = "Runs a script of SQL statements and prints the answer of each";

const SCRIPT: &str = "The file of the script: statements, each ended by ';'";

const DIR: &str = "The folder of the files that the script reads";

const N: &str = "The most rows that a table may have, from 1 to 1073741824";

const EXAMPLE: &str = "Example:\n  colview run orders.sql --dir data --max-rows 1000";

const RUN_IN_SHORT: &str = "Arguments of run:
  <SCRIPT>        The file of the script: statements, each ended by ';'
  --dir <DIR>     The folder of the files that the script reads [default: .]
  --max-rows <N>  The most rows that a table may have, from 1 to 1073741824 [default: 16777216]

Example:
  colview run orders.sql --dir data --max-rows 1000";

/// The whole command line. It is made anew for each parse.
pub(crate) fn command<'a>(alloc: Global) -> Result<Command<'a>, AllocError>
    ensures { IfOk result (λ command. app_of command ≡ colview) }
{
    let run = run_command(alloc)?;
    Command::new(alloc, "colview")
        .about(ABOUT)
        .after_help(RUN_IN_SHORT)
        .version("0.1.0")
        .subcommand_required(true)
        .subcommand(run)
}

fn run_command<'a>(alloc: Global) -> Result<Command<'a>, AllocError>
    ensures { IfOk result (λ command. app_of command ≡ run) }
{
    Command::new(alloc, "run")
        .about(RUN)
        .after_help(EXAMPLE)
        .arg(script_arg(alloc))?
        .arg(dir_arg(alloc))?
        .arg(max_rows_arg(alloc))
}

fn script_arg<'a>(alloc: Global) -> Arg<'a>
    ensures { rule_of result ≡ script }
{
    Arg::new(alloc, "SCRIPT")
        .help(SCRIPT)
        .value_parser(ValueParser::NonEmptyString)
        .required(true)
}

fn dir_arg<'a>(alloc: Global) -> Arg<'a>
    ensures { rule_of result ≡ dir }
{
    Arg::new(alloc, "DIR")
        .long("dir")
        .help(DIR)
        .value_parser(ValueParser::NonEmptyString)
        .default_value(".")
}

fn max_rows_arg<'a>(alloc: Global) -> Arg<'a>
    ensures { rule_of result ≡ max_rows }
{
    Arg::new(alloc, "N")
        .long("max-rows")
        .help(N)
        .value_parser(ValueParser::unsigned(1, MOST))
        .default_value("16777216")
}
