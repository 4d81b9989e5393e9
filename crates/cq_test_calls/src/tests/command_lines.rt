//! Command lines, what they ask for, and the exit statuses and texts that they end with.
use cq_cli_options::{LineFault, options_of};
use std::alloc::{AllocError, Global};
use std::test::Fail;

/// Words, and the script, the folder and the rows that they name.
const ASKED: &[(&[&str], &str, &str, u64)] = &[
    (&["colview", "run", "s.sql"], "s.sql", ".", 16_777_216),
    (
        &["colview", "run", "s.sql", "--dir", "d"],
        "s.sql",
        "d",
        16_777_216,
    ),
    (
        &["colview", "run", "s.sql", "--dir=a b/c", "--max-rows", "1"],
        "s.sql",
        "a b/c",
        1,
    ),
    (
        &["colview", "run", "s.sql", "--dir", "d", "--max-rows", "2"],
        "s.sql",
        "d",
        2,
    ),
    (
        &["colview", "run", "--max-rows", "2", "--dir", "d", "s.sql"],
        "s.sql",
        "d",
        2,
    ),
    (
        &["colview", "run", "--dir", "s.sql", "d"],
        "d",
        "s.sql",
        16_777_216,
    ),
    (
        &["colview", "run", "s.sql", "--max-rows=16777217"],
        "s.sql",
        ".",
        16_777_217,
    ),
    (
        &["colview", "run", "s.sql", "--max-rows", "1073741824"],
        "s.sql",
        ".",
        1_073_741_824,
    ),
    (
        &["colview", "run", "s.sql", "--max-rows", "0012"],
        "s.sql",
        ".",
        12,
    ),
    (
        &["colview", "run", "--max-rows", "12", "--", "-s.sql"],
        "-s.sql",
        ".",
        12,
    ),
];

#[test]
fn the_options_are_the_words_and_else_the_defaults(rt: HostRuntime) {
    for (words, script, dir, max_rows) in ASKED {
        match options_of(rt.alloc(), words) {
            Ok(options) => {
                assert_eq!(rt; options.script.as_str(), *script, "{words:?}");
                assert_eq!(rt; options.dir.as_str(), *dir, "{words:?}");
                assert_eq!(rt; options.max_rows, *max_rows, "{words:?}");
            }
            Err(fault) => assert!(rt; false, "{words:?}: {fault:?}"),
        }
    }
}

/// The exit status of a command line that is refused, None of another.
fn refused<'a>(alloc: Global, words: &'a [&'a str]) -> Option<u8> {
    match options_of(alloc, words) {
        Err(LineFault::Refused(why)) => Some(LineFault::Refused(why).exit()),
        _ => None,
    }
}

#[test]
fn a_line_without_what_it_needs_ends_with_2(rt: HostRuntime) {
    let nothing: [&str; 0] = [];
    assert_eq!(rt; refused(rt.alloc(), nothing.as_slice()), Some(2));
    let lines = [
        ["colview"].as_slice(),
        ["colview", ""].as_slice(),
        ["colview", "run"].as_slice(),
        ["colview", "run", ""].as_slice(),
        ["colview", "run", "--dir", "d"].as_slice(),
        ["colview", "run", "s.sql", "--dir"].as_slice(),
        ["colview", "run", "s.sql", "--dir", ""].as_slice(),
        ["colview", "run", "s.sql", "--dir="].as_slice(),
        ["colview", "run", "s.sql", "--max-rows"].as_slice(),
    ];
    for words in lines {
        assert_eq!(rt; refused(rt.alloc(), words), Some(2), "{words:?}");
    }
}

#[test]
fn a_word_too_many_ends_with_2(rt: HostRuntime) {
    let lines = [
        ["colview", "walk", "s.sql"].as_slice(),
        ["colview", "run", "s.sql", "x"].as_slice(),
        ["colview", "run", "s.sql", ""].as_slice(),
        ["colview", "run", "s.sql", "--nope"].as_slice(),
        ["colview", "run", "-s.sql"].as_slice(),
        ["colview", "run", "s.sql", "--dir", "d", "--dir", "d"].as_slice(),
        [
            "colview",
            "run",
            "s.sql",
            "--max-rows",
            "2",
            "--max-rows",
            "2",
        ]
        .as_slice(),
        ["colview", "run", "s.sql", "--version"].as_slice(),
        ["colview", "--dir", "d", "run", "s.sql"].as_slice(),
    ];
    for words in lines {
        assert_eq!(rt; refused(rt.alloc(), words), Some(2), "{words:?}");
    }
}

#[test]
fn n_is_digits_alone_and_from_1_to_1073741824(rt: HostRuntime) {
    let refused_n = [
        "0",
        "000",
        "1073741825",
        "18446744073709551617",
        "+5",
        "-1",
        "-0",
        "x",
        "",
        " 5",
        "5 ",
        "1.0",
        "1e3",
        "0x10",
        "1_000",
        "٣",
    ];
    for n in refused_n {
        let words = ["colview", "run", "s.sql", "--max-rows", n];
        assert_eq!(rt; refused(rt.alloc(), words.as_slice()), Some(2), "{n:?}");
    }
}

/// The exit status and the text of a command line that asks for no run.
fn told<'a>(alloc: Global, words: &'a [&'a str]) -> Result<(u8, String), AllocError> {
    match options_of(alloc, words) {
        Ok(options) => Ok((255, format!(in alloc; "{options:?}")?)),
        Err(fault) => Ok((fault.exit(), fault.to_string(alloc)?)),
    }
}

#[test]
fn a_refused_n_is_told_with_the_reason(rt: HostRuntime) -> Result<(), Fail> {
    let reasons = [
        ("0", "0 is not in 1..=1073741824"),
        ("1073741825", "1073741825 is not in 1..=1073741824"),
        ("x", "invalid digit found in string"),
        ("+5", "write it in digits alone"),
    ];
    for (n, reason) in reasons {
        let words = ["colview", "run", "s.sql", "--max-rows", n];
        let (status, text) = told(rt.alloc(), words.as_slice())?;
        let wanted = format!(in rt.alloc();
            "error: invalid value '{n}' for '--max-rows <N>': {reason}{MORE}"
        )?;
        assert_eq!(rt; status, 2, "{n}");
        assert_eq!(rt; text.as_str(), wanted.as_str());
    }
    Ok(())
}

const MORE: &str = "\n\nFor more information, try '--help'.\n";

#[test]
fn the_text_of_a_refusal_is_clap_s(rt: HostRuntime) -> Result<(), Fail> {
    let words = ["colview", "run", "s.sql", "x"];
    let (status, text) = told(rt.alloc(), words.as_slice())?;
    let why = "error: unexpected argument 'x' found\n\nUsage: colview run [OPTIONS] <SCRIPT>";
    let wanted = format!(in rt.alloc(); "{why}{MORE}")?;
    assert_eq!(rt; status, 2);
    assert_eq!(rt; text.as_str(), wanted.as_str());
    Ok(())
}

/// Words that ask what there is, and what is told.
const TOLD: &[(&[&str], &str)] = &[
    (&["colview", "--help"], HELP),
    (&["colview", "-h"], HELP),
    (&["colview", "help"], HELP),
    (&["colview", "run", "--help"], RUN_HELP),
    (&["colview", "run", "s.sql", "-h"], RUN_HELP),
    (&["colview", "help", "run"], RUN_HELP),
    (&["colview", "--version"], "colview 0.1.0\n"),
    (&["colview", "-V"], "colview 0.1.0\n"),
];

#[test]
fn help_tells_what_each_word_means(rt: HostRuntime) -> Result<(), Fail> {
    for (words, wanted) in TOLD {
        let (status, text) = told(rt.alloc(), words)?;
        assert_eq!(rt; status, 0, "{words:?}");
        assert_eq!(rt; text.as_str(), *wanted, "{words:?}");
    }
    Ok(())
}

const HELP: &str = "\
A column query engine: runs a script of SQL statements and prints the answers

Usage: colview <COMMAND>

Commands:
  run   Runs a script of SQL statements and prints the answer of each
  help  Print this message or the help of the given subcommand(s)

Options:
  -h, --help     Print help
  -V, --version  Print version

Arguments of run:
  <SCRIPT>        The file of the script: statements, each ended by ';'
  --dir <DIR>     The folder of the files that the script reads [default: .]
  --max-rows <N>  The most rows that a table may have, from 1 to 1073741824 [default: 16777216]

Example:
  colview run orders.sql --dir data --max-rows 1000
";

const RUN_HELP: &str = "\
Runs a script of SQL statements and prints the answer of each

Usage: colview run [OPTIONS] <SCRIPT>

Arguments:
  <SCRIPT>  The file of the script: statements, each ended by ';'

Options:
      --dir <DIR>     The folder of the files that the script reads [default: .]
      --max-rows <N>  The most rows that a table may have, from 1 to 1073741824 [default: 16777216]
  -h, --help          Print help

Example:
  colview run orders.sql --dir data --max-rows 1000
";
