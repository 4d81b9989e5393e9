//! One growth that is refused, wherever it comes: the statement is refused and changes nothing, and goes well when it is
//! given once more. `rt try --test --fail-alloc N` refuses the N-th; tools/fail-each does so to whole scripts.
use super::engines::{carry_out, engine};
use cq_binder_rules::Fault;
use cq_engine::Engine;
use cq_model_step::Answer;
use cq_values::{Lent, cmp_lent};
use cq_values_rows::{LentRow, RowList};
use std::alloc::Global;
use std::process::Abort;
use std::test::Fail;

/// How many writes the view has taken in.
fn taken_in(engine: &Engine) -> u64 {
    engine.view_epoch("v").unwrap_or(0)
}

/// How many it may have taken in behind a statement that is refused: SELECT takes it to the present at most, its REFRESH
/// one write further, and no other statement moves it.
fn may_take_in(engine: &Engine, text: &str) -> u64 {
    if text.starts_with("SELECT") {
        engine.now()
    } else if text.starts_with("REFRESH v 1") {
        taken_in(engine).saturating_add(1)
    } else {
        taken_in(engine)
    }
}

/// Carries a statement out, once more where memory was wanting; what was refused has written nothing, and brought no view
/// back, nor further than it was to go.
fn carried_out(
    rt: &impl Abort,
    alloc: Global,
    engine: &mut Engine,
    text: &str,
) -> Result<Answer, Fault> {
    let before = (engine.now(), engine.drawn());
    let (taken, may) = (taken_in(engine), may_take_in(engine, text));
    match carry_out(rt, alloc, engine, text) {
        Err(Fault::Memory) => {
            let after = (engine.now(), engine.drawn());
            let now_taken = taken_in(engine);
            assert!(rt;
                before == after && taken <= now_taken && now_taken <= may,
                "{text}"
            );
            carry_out(rt, alloc, engine, text)
        }
        first => first,
    }
}

fn is_row(row: &LentRow<'_>, numbers: &[i128]) -> bool {
    row.len() == numbers.len()
        && numbers.iter().enumerate().all(|(at, number)| cmp_lent(
            &row.lend(at),
            &Lent::Number(*number),
        ).is_eq())
}

/// Whether these are the rows, in this order.
fn are_rows(rows: &RowList, wanted: &[&[i128]]) -> bool {
    if rows.len() != wanted.len() {
        return false;
    }
    for (place, numbers) in wanted.iter().enumerate() {
        if !is_row(&rows.row(place), numbers) {
            return false;
        }
    }
    true
}

/// A statement, and the rows that it answers: None of a write.
pub(super) type Step = (&'static str, Option<&'static [&'static [i128]]>);

/// Whether the answer is these rows, or of a write.
fn is_answered(answer: &Answer, wanted: &Option<&[&[i128]]>) -> bool {
    match (answer, wanted) {
        (Answer::Rows { rows, .. }, Some(wanted)) => are_rows(rows, wanted),
        (_, wanted) => wanted.is_none(),
    }
}

pub(super) fn carry_all(
    rt: &impl Abort,
    alloc: Global,
    engine: &mut Engine,
    steps: &[Step],
) -> Result<(), Fail> {
    for (text, wanted) in steps {
        let answer = carried_out(rt, alloc, engine, text)?;
        assert!(rt; is_answered(&answer, wanted), "{text}: {answer:?}");
        drop(answer);
    }
    Ok(())
}

fn carry_all_out(rt: &impl Abort, alloc: Global, steps: &[Step]) -> Result<(), Fail> {
    let mut engine = engine(alloc)?;
    let carried = carry_all(rt, alloc, &mut engine, steps);
    drop(engine);
    carried
}

const VIEWS: &[Step] = &[
    ("CREATE TABLE t(k INTEGER, a INTEGER)", None),
    ("INSERT INTO t VALUES (1, 5), (2, -3), (2, 8)", None),
    ("MOVE t 2", None),
    (
        "CREATE VIEW v AS SELECT k, COUNT(*) AS n, SUM(a) AS s FROM t GROUP BY k",
        None,
    ),
    (
        "CREATE VIEW w AS SELECT a, COUNT(*) AS n FROM t WHERE a > 0 GROUP BY a",
        None,
    ),
    ("INSERT INTO t VALUES (1, 7), (3, 1), (4, 7), (5, 9)", None),
    ("DELETE FROM t WHERE k = 2", None),
    ("INSERT INTO t VALUES (6, 5)", None),
    ("REFRESH v 1", None),
    ("REFRESH w 1", None),
    (
        "SELECT k, n, s FROM v",
        Some(&[&[1, 2, 12], &[3, 1, 1], &[4, 1, 7], &[5, 1, 9], &[6, 1, 5]]),
    ),
    (
        "SELECT a, n FROM w",
        Some(&[&[1, 1], &[5, 2], &[7, 2], &[9, 1]]),
    ),
];

#[test]
fn one_refused_growth_changes_nothing(rt: HostRuntime) -> Result<(), Fail> {
    carry_all_out(&rt, rt.alloc(), VIEWS)
}

const JOINS: &[Step] = &[
    ("CREATE TABLE t(k INTEGER, a INTEGER)", None),
    (
        "INSERT INTO t VALUES (1, 5), (1, 7), (3, 1), (4, 7), (5, 9), (6, 5)",
        None,
    ),
    ("MOVE t 4", None),
    (
        "SELECT x.k, COUNT(*), SUM(y.a) FROM t x JOIN t y ON x.k = y.k WHERE x.a > 1 \
         GROUP BY x.k ORDER BY 3 DESC LIMIT 3",
        Some(&[&[1, 4, 24], &[5, 1, 9], &[4, 1, 7]]),
    ),
    (
        "SELECT DISTINCT a FROM t ORDER BY a DESC",
        Some(&[&[9], &[7], &[5], &[1]]),
    ),
];

#[test]
fn one_refused_growth_of_a_join_changes_nothing(rt: HostRuntime) -> Result<(), Fail> {
    carry_all_out(&rt, rt.alloc(), JOINS)
}
