//! What the command line asks for.
//!
//! [`options_of`] is called once, with all words, and gives [`Options`] or the fault that is shown. It costs one parse by
//! clap; nothing of the files that are named is looked at.
ghost use Rattle.std.specs.Prelude.{◌≡◌, IfErr, IfOk};
ghost use Rattle.clap.specs.Words.{FailsBy, fault_of, subcommand_rows_of};
ghost use Rattle.cq_cli_options.specs.Fault.{AnswersBy, IsLimitFault, IsMemoryIfTaken};
ghost use Rattle.cq_cli_options.specs.Line.{AreIn, AreMatchesIn, IsLimitIn, IsTaken, colview, dir_in, limit_of_rows, script_in, texts, value_of_rows};
ghost use Rattle.cq_cli_options.specs.declared.fault.LineFault.TheVariants.{Memory};

use crate::command::command;
use crate::fault::LineFault;
use crate::limit::{limit_of, limit_refused};
use clap::ArgMatches;
use cq_values::Text;
use std::alloc::Global;

/// What the command line asks for.
#[derive(Debug, Drop)]
pub struct Options {
    /// The path of the script.
    pub script: Text,
    /// The path of the folder that the script's files lie in.
    pub dir: Text,
    /// The most rows that a table may have.
    pub max_rows: u64,
}

/// Reads the words of a command line. The first is the program's name.
pub fn options_of<'a>(alloc: Global, words: &'a [&'a str]) -> Result<Options, LineFault>
    ensures script { IfOk result (λ options. options.script ≡ script_in (texts words.entry.now)) }
    ensures dir { IfOk result (λ options. options.dir ≡ dir_in (texts words.entry.now)) }
    ensures max_rows { IfOk result (λ options. IsLimitIn words.entry.now options.max_rows) }
    ensures memory { IfErr result (λ fault. IsTaken (texts words.entry.now) → fault ≡ Memory) }
    ensures fault { AnswersBy (texts words.entry.now) result }
{
    match matches_from(alloc, words) {
        Ok(matches) => options_in(alloc, &matches),
        Err(error) => Err(LineFault::told(alloc, error)?),
    }
}

fn matches_from<'a>(alloc: Global, words: &'a [&'a str]) -> Result<ArgMatches<'a>, clap::Error>
    ensures rows { IfOk result (AreMatchesIn words.entry.now) }
    ensures memory { IfErr result (IsMemoryIfTaken words.entry.now) }
    ensures fault { FailsBy (fault_of colview (texts words.entry.now)) result }
{
    let command = command(alloc)?;
    command.try_get_matches_from(words)
}

fn options_in(alloc: Global, matches: &ArgMatches<'_>) -> Result<Options, LineFault>
    ensures ok { IfOk result (AreIn (subcommand_rows_of matches.now)) }
    ensures err { IfErr result (IsLimitFault (limit_of_rows (subcommand_rows_of matches.now))) }
{
    let limit = value_of(matches, "N");
    let Some(max_rows) = limit_of(limit) else {
        return Err(LineFault::Refused(limit_refused(alloc, limit)?));
    };
    let script = Text::new(alloc, value_of(matches, "SCRIPT"))?;
    let dir = Text::new(alloc, value_of(matches, "DIR"))?;
    Ok(Options {
        script,
        dir,
        max_rows,
    })
}

fn value_of<'a>(matches: &ArgMatches<'a>, id: &str) -> &'a str
    ensures { result.now ≡ value_of_rows id.now (subcommand_rows_of matches.now) }
{
    match matches.subcommand() {
        Some((_, entered)) => entered.get_str(id).unwrap_or(""),
        None => "",
    }
}
