//! Each prefix of a script answers its whole statements, and refuses a rest that is not blank.
use super::ended;
use crate::test_sink::Plan;
use std::alloc::Global;
use std::process::Abort;
use std::test::Fail;

/// The prefixes from one length on, up to and without another, and their output.
type Prefixes = (usize, usize, &'static str);

fn check(rt: &impl Abort, alloc: Global, script: &str, cases: &[Prefixes]) {
    for &(first, end, output) in cases {
        for length in first..end {
            let bytes = script.as_bytes();
            assert!(rt; length <= bytes.len());
            let (_, sink) = ended(alloc, &bytes[..length], Plan::TakesAll);
            assert_eq!(rt; sink.taken(), output.as_bytes(), "{length} bytes");
        }
    }
}

#[test]
fn of_the_first_run(rt: HostRuntime) -> Result<(), Fail> {
    let script =
        "CREATE TABLE t(a INTEGER); INSERT INTO t VALUES (3), (1), (2); SELECT a FROM t WHERE a >= 2;";
    let cases = [
        (0, 1, ""),
        (1, 26, "error 10 syntax\n"),
        (26, 28, "ok\n"),
        (28, 62, "ok\nerror 10 syntax\n"),
        (62, 64, "ok\nok 3\n"),
        (64, 92, "ok\nok 3\nerror 10 syntax\n"),
        (92, 93, "ok\nok 3\nrows 2\na\n2\n3\n"),
    ];
    check(&rt, rt.alloc(), script, &cases);
    Ok(())
}

#[test]
fn with_comments_and_texts(rt: HostRuntime) -> Result<(), Fail> {
    let script = "-- ;\nSELECT ';';x";
    let cases = [
        (0, 1, ""),
        (1, 2, "error 10 syntax\n"),
        (2, 6, ""),
        (6, 17, "error 10 syntax\n"),
        (17, 18, "error 10 syntax\nerror 10 syntax\n"),
    ];
    check(&rt, rt.alloc(), script, &cases);
    Ok(())
}
