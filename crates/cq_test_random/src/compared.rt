//! Scripts on two engines.
use crate::answers::check_alike;
use crate::counts::{Answered, Counts};
use crate::difference::Difference;
use crate::plain_engine::PlainEngine;
use crate::standing::compare_views;
use cq_binder::bind;
use cq_binder_rules::{Bound, Fault};
use cq_cli::NoSources;
use cq_engine::{AnswerSource, Engine, Limits};
use cq_model::{Order, Query};
use cq_model_step::Answer;
use cq_sql::{parse, split};
use std::alloc::Global;

/// What of a script was compared and is alike on both engines, or the first statement that sets them apart.
pub(crate) fn compare(alloc: Global, script: &str) -> Result<Counts, (&str, Difference)> {
    let limits = Limits {
        max_rows: Limits::MAX_ROWS,
    };
    let mut engine = Engine::new(alloc, limits);
    let mut plain = PlainEngine::new(alloc);
    let compared = compare_on(alloc, &mut engine, &mut plain, script);
    drop(engine);
    drop(plain);
    compared
}

/// The same on these engines.
fn compare_on<'s>(
    alloc: Global,
    engine: &mut Engine,
    plain: &mut PlainEngine,
    script: &'s str,
) -> Result<Counts, (&'s str, Difference)> {
    let mut counts = Counts::new();
    for piece in split(script) {
        if !piece.blank {
            match compare_at(alloc, engine, plain, piece.text, &mut counts) {
                Ok(()) => {}
                Err(difference) => return Err((piece.text, difference)),
            }
        }
    }
    Ok(counts)
}

/// Carries a statement out on both, and compares what they answer and the views behind it.
fn compare_at(
    alloc: Global,
    engine: &mut Engine,
    plain: &mut PlainEngine,
    text: &str,
    counts: &mut Counts,
) -> Result<(), Difference> {
    counts.add(carry_out(alloc, engine, plain, text)?);
    compare_views(alloc, engine, plain, counts)
}

/// Carries a statement out on both, and tells where the answer comes from, which is the same if it is a query. A table is
/// created under the number that is drawn.
fn carry_out(
    alloc: Global,
    engine: &mut Engine,
    plain: &mut PlainEngine,
    text: &str,
) -> Result<Answered, Difference> {
    let statement = parse(alloc, text)?;
    let bound = bind(alloc, &statement, &engine.catalog(), &mut NoSources::new());
    let number = engine.drawn();
    let answer = if number < 1_000_000 {
        engine.step(&statement, &mut NoSources::new())
    } else {
        Err(Fault::LimitExceeded)
    };
    drop(statement);
    match bound {
        Ok(bound) => follow(engine, plain, bound, number, answer),
        Err(fault) => {
            drop(answer);
            Err(Difference::from(fault))
        }
    }
}

/// The same on the plain engine.
fn follow(
    engine: &Engine,
    plain: &mut PlainEngine,
    bound: Bound,
    number: u64,
    answer: Result<Answer, Fault>,
) -> Result<Answered, Difference> {
    if let Bound::Select { query, order, .. } = &bound {
        let told = engine.answer_source(&bound);
        let answered = compare_query(plain, query, order, told, &answer);
        drop(answer);
        drop(bound);
        return answered;
    }
    match answer.err() {
        None => {
            plain.carry_out(bound, number)?;
            Ok(Answered::Command)
        }
        Some(fault) => {
            drop(bound);
            Err(Difference::Refused(fault))
        }
    }
}

/// Compares where the answer to a query comes from, and then the answer.
fn compare_query(
    plain: &mut PlainEngine,
    query: &Query,
    order: &Order,
    told: AnswerSource<'_>,
    answer: &Result<Answer, Fault>,
) -> Result<Answered, Difference> {
    if plain.answer_source(query)? != told {
        return Err(Difference::Source);
    }
    let meant = plain.answer(query, order);
    check_alike(answer, &meant)?;
    match told {
        AnswerSource::Tables => Ok(Answered::FromTables),
        AnswerSource::View(_) => Ok(Answered::FromView),
    }
}
