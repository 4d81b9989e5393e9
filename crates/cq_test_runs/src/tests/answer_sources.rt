//! Where the engine tells that answers come from.
use super::engines::{carry_out, engine};
use cq_binder::bind;
use cq_binder_rules::{Bound, Fault};
use cq_cli::NoSources;
use cq_engine::{AnswerSource, Engine};
use cq_sql::{SqlFault, parse};
use std::alloc::Global;
use std::process::Abort;
use std::test::Fail;

const TABLES: AnswerSource<'static> = AnswerSource::Tables;

/// A statement, and where its answer comes from before it is carried out.
const OF_GROUPS: &[(&str, AnswerSource<'static>)] = &[
    ("CREATE TABLE t(k INTEGER, a INTEGER)", TABLES),
    ("SELECT k, SUM(a) FROM t WHERE a > 1 GROUP BY k", TABLES),
    (
        "CREATE VIEW v AS SELECT k, SUM(a) AS s FROM t WHERE a > 1 GROUP BY k",
        TABLES,
    ),
    (
        "CREATE VIEW w AS SELECT x.k, SUM(x.a) AS m FROM t x WHERE x.a > 1 GROUP BY x.k",
        TABLES,
    ),
    (
        "SELECT DISTINCT q.k AS s, SUM(q.a) FROM t q WHERE q.a > 1 GROUP BY q.k ORDER BY 2 DESC LIMIT 3",
        AnswerSource::View("v"),
    ),
    (
        "SELECT k, SUM(a) FROM t WHERE a > 1 GROUP BY k HAVING 1 = 1",
        TABLES,
    ),
    ("SELECT k, SUM(a) FROM t GROUP BY k", TABLES),
    (
        "SELECT k, SUM(a) FROM t WHERE a > 1 AND k > 1 GROUP BY k",
        TABLES,
    ),
    ("SELECT SUM(a), k FROM t WHERE a > 1 GROUP BY k", TABLES),
    ("SELECT k, s FROM v", TABLES),
    ("DROP VIEW v", TABLES),
    (
        "SELECT k, SUM(a) FROM t WHERE a > 1 GROUP BY k",
        AnswerSource::View("w"),
    ),
    (
        "CREATE VIEW v AS SELECT k, SUM(a) AS s FROM t WHERE a > 1 GROUP BY k",
        TABLES,
    ),
    (
        "SELECT k, SUM(a) FROM t WHERE a > 1 GROUP BY k",
        AnswerSource::View("w"),
    ),
];

/// The same over a table that is joined with itself: columns count by their places, whatever its sources are called.
const OF_PAIRS: &[(&str, AnswerSource<'static>)] = &[
    ("CREATE TABLE t(k INTEGER, a INTEGER)", TABLES),
    (
        "CREATE VIEW v AS SELECT x.k, y.a FROM t x JOIN t y ON x.k = y.a",
        TABLES,
    ),
    (
        "SELECT y.k AS a, x.a AS k FROM t y JOIN t x ON x.a = y.k",
        AnswerSource::View("v"),
    ),
    ("SELECT x.k, y.a FROM t y JOIN t x ON y.k = x.a", TABLES),
    ("SELECT x.k, y.a FROM t x JOIN t y ON x.k = y.k", TABLES),
];

/// The same with an item and conditions that are written in other words.
const OF_ROWS: &[(&str, AnswerSource<'static>)] = &[
    ("CREATE TABLE t(k INTEGER, a INTEGER)", TABLES),
    (
        "CREATE VIEW v AS SELECT k - a AS d FROM t WHERE k NOT IN (1) AND a > 1 AND k > 1",
        TABLES,
    ),
    (
        "SELECT (k) + -a FROM t WHERE (NOT k IN (1) AND a > 1) AND k > 1",
        AnswerSource::View("v"),
    ),
    (
        "SELECT k - a FROM t WHERE k NOT IN (1) AND (a > 1 AND k > 1)",
        TABLES,
    ),
    (
        "SELECT k - a FROM t WHERE a > 1 AND k NOT IN (1) AND k > 1",
        TABLES,
    ),
    (
        "SELECT k - a FROM t WHERE k NOT IN (1) AND 1 < a AND k > 1",
        TABLES,
    ),
];

/// Whether the engine tells that the answer to a statement comes from there.
fn tells(
    alloc: Global,
    engine: &Engine,
    text: &str,
    source: AnswerSource<'_>,
) -> Result<bool, Fault> {
    match parse(alloc, text) {
        Ok(statement) => {
            let bound = bind(alloc, &statement, &engine.catalog(), &mut NoSources::new());
            drop(statement);
            tells_of(engine, bound?, source)
        }
        Err(SqlFault::Memory) => Err(Fault::Memory),
        Err(_) => Err(Fault::Syntax),
    }
}

fn tells_of(engine: &Engine, bound: Bound, source: AnswerSource<'_>) -> Result<bool, Fault> {
    let told = engine.answer_source(&bound) == source;
    drop(bound);
    Ok(told)
}

fn tells_each(
    rt: &impl Abort,
    alloc: Global,
    engine: &mut Engine,
    statements: &[(&str, AnswerSource<'static>)],
) -> Result<(), Fail> {
    for (statement, source) in statements {
        assert!(rt; tells(alloc, engine, statement, *source)?, "{statement}");
        drop(carry_out(rt, alloc, engine, statement)?);
    }
    Ok(())
}

#[test]
fn the_first_created_view_with_the_core_has_the_answer(rt: HostRuntime) -> Result<(), Fail> {
    let mut engine = engine(rt.alloc())?;
    let told = tells_each(&rt, rt.alloc(), &mut engine, OF_GROUPS);
    drop(engine);
    told
}

#[test]
fn a_core_is_compared_by_places_of_columns(rt: HostRuntime) -> Result<(), Fail> {
    let mut engine = engine(rt.alloc())?;
    let told = tells_each(&rt, rt.alloc(), &mut engine, OF_PAIRS);
    drop(engine);
    told
}

#[test]
fn other_words_for_one_tree_are_one_core(rt: HostRuntime) -> Result<(), Fail> {
    let mut engine = engine(rt.alloc())?;
    let told = tells_each(&rt, rt.alloc(), &mut engine, OF_ROWS);
    drop(engine);
    told
}
