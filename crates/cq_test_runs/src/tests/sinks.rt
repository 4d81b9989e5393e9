//! What a run answers where its sink fails.
use super::ended;
use crate::test_sink::Plan;
use std::test::Fail;

const SCRIPT: &str =
    "CREATE TABLE t(a INTEGER); INSERT INTO t VALUES (3), (1), (2); nonsense; SELECT a FROM t WHERE a >= 2;";

const OUTPUT: &str = "ok\nok 3\nerror 10 syntax\nrows 2\na\n2\n3\n";

#[test]
fn one_byte_a_put_ends_as_usual(rt: HostRuntime) -> Result<(), Fail> {
    let (exit, sink) = ended(rt.alloc(), SCRIPT.as_bytes(), Plan::TakesOneByte);
    assert_eq!(rt; sink.taken(), OUTPUT.as_bytes());
    assert_eq!(rt; exit, 1);
    assert_eq!(rt; sink.failures(), 0);
    assert!(rt; sink.is_flushed());
    assert_eq!(rt; sink.flushes(), 1);
    Ok(())
}

#[test]
fn a_put_that_fails_or_takes_nothing_ends_the_run(rt: HostRuntime) -> Result<(), Fail> {
    // the fewest puts are one for each of the four answers
    for put in 0..4 {
        for plan in [Plan::FailsAt(put), Plan::TakesNothingAt(put)] {
            let (exit, sink) = ended(rt.alloc(), SCRIPT.as_bytes(), plan);
            assert_eq!(rt; exit, 3, "{plan:?}");
            assert_eq!(rt; sink.failures(), 1, "{plan:?}");
            assert!(rt; sink.taken().len() < OUTPUT.len(), "{plan:?}");
            assert!(rt; OUTPUT.as_bytes().starts_with(sink.taken()), "{plan:?}");
        }
    }
    // a put that never comes does not fail
    let (exit, sink) = ended(rt.alloc(), SCRIPT.as_bytes(), Plan::FailsAt(1000));
    assert_eq!(rt; exit, 1);
    assert_eq!(rt; sink.taken(), OUTPUT.as_bytes());
    Ok(())
}

#[test]
fn a_flush_that_fails_is_told_after_the_whole_output(rt: HostRuntime) -> Result<(), Fail> {
    for (script, output) in [(SCRIPT, OUTPUT), ("", ""), ("-- note", "")] {
        let (exit, sink) = ended(rt.alloc(), script.as_bytes(), Plan::FlushFails);
        assert_eq!(rt; exit, 3, "{script}");
        assert_eq!(rt; sink.taken(), output.as_bytes(), "{script}");
        assert_eq!(rt; sink.failures(), 1, "{script}");
        assert!(rt; !sink.is_flushed(), "{script}");
        assert_eq!(rt; sink.flushes(), 0, "{script}");
    }
    Ok(())
}
