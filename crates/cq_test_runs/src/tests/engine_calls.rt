//! What an engine tells beside its answers.
use super::engines::{carry_out, engine};
use cq_binder::Catalog;
use cq_binder_rules::Fault;
use cq_engine::{Engine, Limits};
use cq_model::{Query, Shape, Source};
use std::alloc::Global;
use std::process::Abort;
use std::test::Fail;

#[test]
fn a_table_may_be_limited_to_1_up_to_1073741824_rows(rt: HostRuntime) {
    let limits = [
        (0, false),
        (1, true),
        (16_777_217, true),
        (1_073_741_824, true),
        (1_073_741_825, false),
        (u64::MAX, false),
    ];
    for (max_rows, is_one) in limits {
        assert_eq!(rt; Limits::new(max_rows).is_some(), is_one, "{max_rows}");
    }
}

/// A statement, how many writes were accepted behind it, and how many of them the view has taken in.
const STATEMENTS: &[(&str, u64, Option<u64>)] = &[
    ("CREATE TABLE t(k INTEGER, a INTEGER)", 0, None),
    ("INSERT INTO t VALUES (1,5), (2,-3)", 1, None),
    (
        "CREATE VIEW v AS SELECT k, COUNT(*) AS n, SUM(a) AS s FROM t GROUP BY k",
        1,
        Some(1),
    ),
    ("INSERT INTO t VALUES (1,7)", 2, Some(1)),
    ("DELETE FROM t WHERE k = 2", 3, Some(1)),
    ("SELECT k, a FROM t", 3, Some(1)),
    ("SELECT k, n, s FROM v", 3, Some(3)),
    ("CREATE TABLE u(k INTEGER)", 3, Some(3)),
    ("DELETE FROM u", 4, Some(3)),
    ("REFRESH v 1", 4, Some(4)),
    ("DROP VIEW v", 4, None),
];

fn take_in_what_waits(rt: &impl Abort, alloc: Global, engine: &mut Engine) -> Result<(), Fail> {
    for (statement, now, epoch) in STATEMENTS {
        drop(carry_out(rt, alloc, engine, statement)?);
        assert!(rt;
            engine.now() == *now && engine.view_epoch("v") == *epoch,
            "{statement}"
        );
    }
    assert!(rt; engine.drawn() == 6);
    Ok(())
}

#[test]
fn a_view_takes_in_what_waits_where_it_is_read(rt: HostRuntime) -> Result<(), Fail> {
    let mut engine = engine(rt.alloc())?;
    let taken = take_in_what_waits(&rt, rt.alloc(), &mut engine);
    drop(engine);
    taken
}

/// Behind each of these statements a view of a name is taken on by so many writes: its epoch then, or the refusal.
const REFRESHES: &[(&str, &str, u128, Result<u64, Fault>)] = &[
    (
        "CREATE TABLE t(k INTEGER)",
        "v",
        1,
        Err(Fault::UnknownTable),
    ),
    (
        "CREATE VIEW v AS SELECT COUNT(*) AS n FROM t",
        "v",
        0,
        Ok(0),
    ),
    ("INSERT INTO t VALUES (1)", "x", 1, Err(Fault::UnknownTable)),
    ("INSERT INTO t VALUES (2)", "t", 1, Err(Fault::UnknownTable)),
    ("DELETE FROM t WHERE k = 1", "v", 2, Ok(2)),
    ("MOVE t 1", "v", 0, Ok(2)),
    ("MERGE t", "v", 9, Ok(3)),
    ("DELETE FROM t WHERE k = 1", "v", u128::MAX, Ok(4)),
];

fn refresh_each(rt: &impl Abort, alloc: Global, engine: &mut Engine) -> Result<(), Fail> {
    for (statement, view, changes, told) in REFRESHES {
        drop(carry_out(rt, alloc, engine, statement)?);
        let epoch = match engine.refresh(view, *changes) {
            Ok(()) => Ok(engine.view_epoch(view).ok_or("no view")?),
            Err(fault) => Err(fault),
        };
        assert!(rt; epoch == *told, "{statement}");
    }
    Ok(())
}

#[test]
fn a_view_is_refreshed_by_its_name_alone(rt: HostRuntime) -> Result<(), Fail> {
    let mut engine = engine(rt.alloc())?;
    let refreshed = refresh_each(&rt, rt.alloc(), &mut engine);
    drop(engine);
    refreshed
}

/// A table, and a view on it.
fn fill(rt: &impl Abort, alloc: Global, engine: &mut Engine) -> Result<(), Fail> {
    let table = "CREATE TABLE t(a TEXT, b INTEGER)";
    let view = "CREATE VIEW v AS SELECT COUNT(*) FROM t GROUP BY b";
    drop(carry_out(rt, alloc, engine, table)?);
    drop(carry_out(rt, alloc, engine, view)?);
    Ok(())
}

/// The columns of GROUP BY.
fn key_columns(query: &Query) -> Option<&[usize]> {
    match &query.shape {
        Shape::Grouped {
            keys: Some(keys),
            ..
        } => Some(keys.as_slice()),
        _ => None,
    }
}

fn tells_the_table(rt: &impl Abort, engine: &Engine) -> Result<(), Fail> {
    let catalog = engine.catalog();
    let table = catalog.table("t").ok_or("no table")?;
    assert!(rt; table.number == 0 && table.columns.len() == 2);
    assert!(rt; catalog.is_used(0));
    Ok(())
}

fn tells_the_view(rt: &impl Abort, alloc: Global, engine: &Engine) -> Result<(), Fail> {
    let catalog = engine.catalog();
    let view = catalog.view(alloc, "v")?.ok_or("no view")?;
    assert!(rt; view.place == 0 && view.columns.len() == 1);
    assert!(rt; view.sizes.as_slice() == [1u128 << 120].as_slice());
    let query = catalog.query("v").ok_or("no query")?;
    assert!(rt; query.first == Source::Table(0));
    assert!(rt; key_columns(query) == Some([1].as_slice()));
    Ok(())
}

fn tell_both(rt: &impl Abort, alloc: Global, engine: &mut Engine) -> Result<(), Fail> {
    fill(rt, alloc, engine)?;
    tells_the_table(rt, engine)?;
    tells_the_view(rt, alloc, engine)
}

#[test]
fn the_catalog_tells_a_table_and_a_view(rt: HostRuntime) -> Result<(), Fail> {
    let mut engine = engine(rt.alloc())?;
    let told = tell_both(&rt, rt.alloc(), &mut engine);
    drop(engine);
    told
}

/// Tables, and a view on two of them.
const JOINED: &[&str] = &[
    "CREATE TABLE t(k INTEGER, a INTEGER)",
    "CREATE TABLE u(k INTEGER, b INTEGER)",
    "CREATE TABLE w(k INTEGER)",
    "INSERT INTO t VALUES (1,5)",
    "INSERT INTO u VALUES (1,2)",
    "CREATE VIEW v AS SELECT t.a AS a, u.b AS b FROM t JOIN u ON t.k = u.k",
];

/// A write, and whether it changes the view.
const WRITES: &[(&str, bool)] = &[
    ("INSERT INTO t VALUES (1,7)", true),
    ("INSERT INTO w VALUES (1)", false),
    ("DELETE FROM u WHERE k = 1", true),
];

fn work_rises(rt: &impl Abort, alloc: Global, engine: &mut Engine) -> Result<(), Fail> {
    let mut before = engine.view_work("v").ok_or("no view")?;
    assert!(rt; before == 0);
    for (statement, changes) in WRITES {
        drop(carry_out(rt, alloc, engine, statement)?);
        assert!(rt; engine.view_work("v") == Some(before), "{statement}");
        engine.refresh("v", 1)?;
        let work = engine.view_work("v").ok_or("no view")?;
        assert!(rt;
            if *changes {
                before < work
            } else {
                before == work
            },
            "{statement}"
        );
        before = work;
    }
    Ok(())
}

fn tells_what_is_stored(rt: &impl Abort, engine: &Engine) -> Result<(), Fail> {
    let view = engine.view_state("v").ok_or("no view")?;
    assert!(rt; view.built() == 2 && view.epoch() == 5);
    assert!(rt; view.columns().len() == 2 && Some(view.work()) == engine.view_work("v"));
    assert!(rt; engine.view_state("w").is_none() && engine.view_work("w").is_none());
    Ok(())
}

fn count_work(rt: &impl Abort, alloc: Global, engine: &mut Engine) -> Result<(), Fail> {
    for statement in JOINED {
        drop(carry_out(rt, alloc, engine, statement)?);
    }
    work_rises(rt, alloc, engine)?;
    tells_what_is_stored(rt, engine)
}

/// Statements, of which the first make views on a table of two rows of one key, and a write; by how much at most the work of
/// the view `pairs` rises for it, which joins the table with itself, and that of `counts`.
const COUNTED: &[(&[&str], u128, u128)] = &[
    (
        &[
            "CREATE TABLE t(k INTEGER, a INTEGER)",
            "INSERT INTO t VALUES (1,5), (1,6)",
            "CREATE VIEW pairs AS SELECT COUNT(*) AS n FROM t x JOIN t y ON x.k = y.k",
            "CREATE VIEW counts AS SELECT k, COUNT(*) AS n FROM t GROUP BY k",
            "INSERT INTO t VALUES (1,7)",
        ],
        7,
        2,
    ),
    (&["UPDATE t SET k = k, a = a"], 0, 0),
    (&["DELETE FROM t WHERE k = 9"], 0, 0),
];

/// Takes a view on by one write, and tells by how much its work has risen.
fn work_for_one(engine: &mut Engine, view: &str) -> Result<u128, Fail> {
    let before = engine.view_work(view).ok_or("no view")?;
    engine.refresh(view, 1)?;
    let after = engine.view_work(view).ok_or("no view")?;
    Ok(after.saturating_sub(before))
}

fn bound_work(rt: &impl Abort, alloc: Global, engine: &mut Engine) -> Result<(), Fail> {
    for (statements, pairs, counts) in COUNTED {
        for statement in *statements {
            drop(carry_out(rt, alloc, engine, statement)?);
        }
        assert!(rt; work_for_one(engine, "pairs")? <= *pairs);
        assert!(rt; work_for_one(engine, "counts")? <= *counts);
    }
    Ok(())
}

#[test]
fn a_write_is_little_work_for_a_view(rt: HostRuntime) -> Result<(), Fail> {
    let mut engine = engine(rt.alloc())?;
    let bounded = bound_work(&rt, rt.alloc(), &mut engine);
    drop(engine);
    bounded
}

#[test]
fn a_view_counts_the_writes_that_change_it(rt: HostRuntime) -> Result<(), Fail> {
    let mut engine = engine(rt.alloc())?;
    let counted = count_work(&rt, rt.alloc(), &mut engine);
    drop(engine);
    counted
}

/// A statement, and how many rows of `t` stand in the write store behind it, and how many in segments with a mark.
const STORED: &[(&str, u64, u64)] = &[
    ("CREATE TABLE t(k INTEGER)", 0, 0),
    ("INSERT INTO t VALUES (1), (2), (3), (4), (5)", 5, 0),
    ("MOVE t 3", 2, 0),
    ("DELETE FROM t WHERE k = 2 OR k = 5", 2, 1),
    ("MOVE t 0", 2, 1),
    ("UPDATE t SET k = k + 1 WHERE k < 2", 3, 2),
    ("MOVE t 99", 0, 2),
    ("MERGE t", 0, 0),
];

fn tell_lengths(rt: &impl Abort, alloc: Global, engine: &mut Engine) -> Result<(), Fail> {
    assert!(rt; engine.stored("t") == None);
    for (statement, written, marked) in STORED {
        drop(carry_out(rt, alloc, engine, statement)?);
        assert!(rt;
            engine.stored("t") == Some((*written, *marked)),
            "{statement}"
        );
    }
    Ok(())
}

#[test]
fn the_engine_tells_where_rows_are_stored(rt: HostRuntime) -> Result<(), Fail> {
    let mut engine = engine(rt.alloc())?;
    let told = tell_lengths(&rt, rt.alloc(), &mut engine);
    drop(engine);
    told
}
