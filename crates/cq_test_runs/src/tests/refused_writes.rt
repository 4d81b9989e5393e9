//! One growth of a write that is refused, wherever it comes, under three views over joined tables: each table and each view
//! answers as before, and the write goes well when it is given once more. And one of a REFRESH over writes that wait.
//! `rt try --test --fail-alloc N` refuses the N-th; tools/fail-each does so to whole scripts.
use super::engines::{carry_out, engine};
use super::refused_growths::{Step, carry_all};
use cq_binder_rules::Fault;
use cq_engine::Engine;
use std::alloc::Global;
use std::process::Abort;
use std::test::Fail;

/// Three tables, and a view over all of them, one over a table beside itself, and one that keeps MIN and MAX.
const TABLES_AND_VIEWS: &[Step] = &[
    ("CREATE TABLE o(id INTEGER, shop INTEGER)", None),
    ("CREATE TABLE p(id INTEGER, price INTEGER)", None),
    ("CREATE TABLE l(o INTEGER, p INTEGER, q INTEGER)", None),
    ("INSERT INTO o VALUES (1, 7), (2, 7), (3, 8)", None),
    ("INSERT INTO p VALUES (10, 3), (11, 5), (12, 4)", None),
    (
        "INSERT INTO l VALUES (1, 10, 2), (1, 11, 1), (2, 10, 4)",
        None,
    ),
    ("MOVE l 2", None),
    ("MOVE p 9", None),
    (
        "CREATE VIEW turnover AS SELECT o.shop, SUM(l.q * p.price) AS s, COUNT(*) AS n \
         FROM o JOIN l ON o.id = l.o JOIN p ON l.p = p.id GROUP BY o.shop",
        None,
    ),
    (
        "CREATE VIEW pairs AS SELECT x.p AS one, y.p AS other \
         FROM l x JOIN l y ON x.o = y.o WHERE x.p < y.p",
        None,
    ),
    (
        "CREATE VIEW bounds AS SELECT l.p, MIN(l.q) AS least, MAX(l.q) AS most \
         FROM l JOIN p ON l.p = p.id GROUP BY l.p",
        None,
    ),
];

const ORDERS: Step = ("SELECT id, shop FROM o", Some(&[&[1, 7], &[2, 7], &[3, 8]]));

const PRODUCTS: Step = (
    "SELECT id, price FROM p",
    Some(&[&[10, 3], &[11, 5], &[12, 4]]),
);

const LINES: &str = "SELECT o, p, q FROM l";

const TURNOVER: &str = "SELECT shop, s, n FROM turnover";

const PAIRS: &str = "SELECT one, other FROM pairs";

const BOUNDS: &str = "SELECT p, least, most FROM bounds";

/// What each table and each view answers before the writes.
const BEFORE: &[Step] = &[
    ORDERS,
    PRODUCTS,
    (LINES, Some(&[&[1, 10, 2], &[1, 11, 1], &[2, 10, 4]])),
    (TURNOVER, Some(&[&[7, 23, 3]])),
    (PAIRS, Some(&[&[10, 11]])),
    (BOUNDS, Some(&[&[10, 2, 4], &[11, 1, 1]])),
];

/// What they answer behind an INSERT.
const INSERTED: &[Step] = &[
    ORDERS,
    PRODUCTS,
    (
        LINES,
        Some(&[
            &[1, 10, 2],
            &[1, 11, 1],
            &[2, 10, 4],
            &[2, 11, 3],
            &[3, 12, 5],
        ]),
    ),
    (TURNOVER, Some(&[&[7, 38, 4], &[8, 20, 1]])),
    (PAIRS, Some(&[&[10, 11], &[10, 11]])),
    (BOUNDS, Some(&[&[10, 2, 4], &[11, 1, 3], &[12, 5, 5]])),
];

/// And then behind an UPDATE.
const UPDATED: &[Step] = &[
    ORDERS,
    PRODUCTS,
    (
        LINES,
        Some(&[
            &[1, 10, 2],
            &[1, 11, 1],
            &[2, 10, 5],
            &[2, 11, 4],
            &[3, 12, 5],
        ]),
    ),
    (TURNOVER, Some(&[&[7, 46, 4], &[8, 20, 1]])),
    (PAIRS, Some(&[&[10, 11], &[10, 11]])),
    (BOUNDS, Some(&[&[10, 2, 5], &[11, 1, 4], &[12, 5, 5]])),
];

/// And then behind a DELETE.
const DELETED: &[Step] = &[
    ORDERS,
    PRODUCTS,
    (LINES, Some(&[&[2, 10, 5], &[2, 11, 4], &[3, 12, 5]])),
    (TURNOVER, Some(&[&[7, 35, 2], &[8, 20, 1]])),
    (PAIRS, Some(&[&[10, 11]])),
    (BOUNDS, Some(&[&[10, 5, 5], &[11, 4, 4], &[12, 5, 5]])),
];

/// A write or a step of the mover, and what each table and each view answers behind it.
type Write = (&'static str, &'static [Step]);

const WRITES: &[Write] = &[
    ("INSERT INTO l VALUES (2, 11, 3), (3, 12, 5)", INSERTED),
    ("MOVE l 2", INSERTED),
    ("UPDATE l SET q = q + 1 WHERE o = 2", UPDATED),
    ("MERGE l", UPDATED),
    ("DELETE FROM l WHERE o = 1", DELETED),
    ("MERGE l", DELETED),
    ("MOVE l 9", DELETED),
];

/// How many writes there were, and how many of them each view has taken in.
fn epochs(engine: &Engine) -> (u64, [Option<u64>; 3]) {
    let views = ["turnover", "pairs", "bounds"];
    (engine.now(), views.map(|view| engine.view_epoch(view)))
}

/// Carries the write out, once more where memory was wanting; what was refused has changed no answer.
fn write(
    rt: &impl Abort,
    alloc: Global,
    engine: &mut Engine,
    text: &str,
    before: &[Step],
) -> Result<(), Fail> {
    let told = epochs(engine);
    match carry_out(rt, alloc, engine, text) {
        Err(Fault::Memory) => {
            assert!(rt; epochs(engine) == told, "{text}");
            carry_all(rt, alloc, engine, before)?;
            drop(carry_out(rt, alloc, engine, text)?);
        }
        first => drop(first?),
    }
    Ok(())
}

fn write_all(rt: &impl Abort, alloc: Global, engine: &mut Engine) -> Result<(), Fail> {
    carry_all(rt, alloc, engine, TABLES_AND_VIEWS)?;
    carry_all(rt, alloc, engine, BEFORE)?;
    let mut before = BEFORE;
    for (text, after) in WRITES {
        write(rt, alloc, engine, text, before)?;
        carry_all(rt, alloc, engine, after)?;
        before = after;
    }
    Ok(())
}

#[test]
fn one_refused_growth_of_a_write_changes_no_table_and_no_view(rt: HostRuntime) -> Result<(), Fail> {
    let mut engine = engine(rt.alloc())?;
    let written = write_all(&rt, rt.alloc(), &mut engine);
    drop(engine);
    written
}

/// Writes that wait.
const WAITING: &[Step] = &[
    ("INSERT INTO l VALUES (2, 11, 3), (3, 12, 5)", None),
    ("UPDATE l SET q = q + 1 WHERE o = 2", None),
    ("DELETE FROM l WHERE o = 1", None),
];

/// To which epoch each view is taken on: by one of these writes, by two and by all of them.
const GOALS: [(&str, u64); 3] = [("turnover", 4), ("pairs", 5), ("bounds", 6)];

fn stands_at(engine: &Engine, view: &str) -> u64 {
    engine.view_epoch(view).unwrap_or(0)
}

/// Takes a view on to an epoch, once more from where it stands where memory was wanting. It never goes back or beyond.
fn take_on(rt: &impl Abort, engine: &mut Engine, view: &str, goal: u64) -> Result<(), Fail> {
    let before = stands_at(engine, view);
    match engine.refresh(view, u128::from(goal.saturating_sub(before))) {
        Err(Fault::Memory) => {
            let now = stands_at(engine, view);
            assert!(rt; before <= now && now <= goal, "{view}");
            engine.refresh(view, u128::from(goal.saturating_sub(now)))?;
        }
        first => first?,
    }
    Ok(())
}

fn wait_and_refresh(rt: &impl Abort, alloc: Global, engine: &mut Engine) -> Result<(), Fail> {
    carry_all(rt, alloc, engine, TABLES_AND_VIEWS)?;
    carry_all(rt, alloc, engine, WAITING)?;
    for (view, goal) in GOALS {
        take_on(rt, engine, view, goal)?;
    }
    let behind = [Some(4), Some(5), Some(6)];
    assert!(rt; epochs(engine) == (6, behind));
    carry_all(rt, alloc, engine, DELETED)
}

#[test]
fn one_refused_growth_of_a_refresh_takes_no_view_too_far(rt: HostRuntime) -> Result<(), Fail> {
    let mut engine = engine(rt.alloc())?;
    let refreshed = wait_and_refresh(&rt, rt.alloc(), &mut engine);
    drop(engine);
    refreshed
}
