//! The texts of statements. That the trees are right is seen by what the scripts of cq_test_transcript answer.
use cq_sql::{SqlFault, parse};
use std::alloc::Global;

/// Why the text is no statement.
fn refusal(alloc: Global, text: &str) -> Option<SqlFault> {
    parse(alloc, text).err()
}

/// A piece, and why it is no statement.
const PIECES: &[(&str, Option<SqlFault>)] = &[
    ("SELECT a, b + 1 AS c FROM t WHERE a = 1 -- one", None),
    ("SELECT a FROM", Some(SqlFault::Syntax)),
    ("SELECT 'x' ! FROM t", Some(SqlFault::Syntax)),
];

#[test]
fn a_piece_is_a_statement_or_refused(rt: HostRuntime) {
    for (text, refused) in PIECES {
        assert!(rt; refusal(rt.alloc(), text) == *refused, "{text}");
    }
}
