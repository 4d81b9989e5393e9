//! Sources of a test's own: COPY reads its source once, where the names before it have no fault, and not before all
//! answers ahead of it were written.
use crate::test_sink::{Plan, TestSink};
use crate::test_source::TestSource;
use cq_cli::run;
use cq_engine::Limits;
use std::test::Fail;

const SCRIPT: &str =
    "CREATE TABLE t(a INTEGER); COPY u FROM 'f'; COPY t FROM 'f'; COPY t FROM 'f'; \
    COPY t FROM 'f'; SELECT COUNT(*) AS n, SUM(a) AS s FROM t;";

/// Which read fails, how many do, and what the script is answered with.
const FAILED_READS: &[(u64, u64, &str)] = &[
    (
        0,
        1,
        "ok\nerror 11 unknown table or view\nerror 3 source failed\nok 2\nok 2\nrows 1\nn,s\n4,6\n",
    ),
    (
        1,
        1,
        "ok\nerror 11 unknown table or view\nok 2\nerror 3 source failed\nok 2\nrows 1\nn,s\n4,6\n",
    ),
    (
        2,
        1,
        "ok\nerror 11 unknown table or view\nok 2\nok 2\nerror 3 source failed\nrows 1\nn,s\n4,6\n",
    ),
    (
        3,
        0,
        "ok\nerror 11 unknown table or view\nok 2\nok 2\nok 2\nrows 1\nn,s\n6,9\n",
    ),
];

#[test]
fn copy_reads_its_source_once_and_counts_its_failure(rt: HostRuntime) -> Result<(), Fail> {
    for (fails_at, failures, output) in FAILED_READS {
        let mut source = TestSource::new("1\n2\n", *fails_at);
        let mut sink = TestSink::new(rt.alloc(), Plan::TakesAll);
        let limits = Limits { max_rows: 6 };
        let _ended = run(
            rt.alloc(),
            SCRIPT.as_bytes(),
            limits,
            &mut source,
            &mut sink,
        );
        assert_eq!(rt; sink.taken(), output.as_bytes());
        assert_eq!(rt; source.reads(), 3);
        assert_eq!(rt; source.failures(), *failures);
    }
    Ok(())
}

const COPIES: &str = "CREATE TABLE t(a INTEGER); COPY t FROM 'f'; COPY t FROM 'f';";

#[test]
fn no_source_is_read_behind_an_answer_that_was_not_written(rt: HostRuntime) -> Result<(), Fail> {
    // at which put the sink fails, and how often the source was read by then: the first answer is one put
    for (put, reads) in [(0, 0), (1, 1)] {
        let mut source = TestSource::new("1\n2\n", 9);
        let mut sink = TestSink::new(rt.alloc(), Plan::FailsAt(put));
        let limits = Limits { max_rows: 4 };
        let _ended = run(
            rt.alloc(),
            COPIES.as_bytes(),
            limits,
            &mut source,
            &mut sink,
        );
        assert_eq!(rt; source.reads(), reads, "{put}");
    }
    Ok(())
}
