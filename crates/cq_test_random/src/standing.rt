//! Views of the engine, beside their queries on the tables as they were.
use crate::answers::are_meant;
use crate::counts::Counts;
use crate::difference::Difference;
use crate::plain_engine::PlainEngine;
use crate::plain_view::{PlainView, in_order};
use cq_engine::Engine;
use cq_model::ShowFault;
use cq_test_plain::PlainFault;
use cq_values_rows::RowList;
use std::alloc::Global;

/// Compares what the engine has stored of each view with what the view means at its epoch, and counts the epochs that
/// views came to.
pub(crate) fn compare_views(
    alloc: Global,
    engine: &Engine,
    plain: &mut PlainEngine,
    counts: &mut Counts,
) -> Result<(), Difference> {
    let now = engine.now();
    if now != plain.writes() {
        return Err(Difference::Writes);
    }
    for (place, view) in plain.views_mut().iter_mut().enumerate() {
        compare_view(alloc, engine, place as u64, view)?;
        if view.has_come() {
            counts.add_epoch(view.epoch(), now);
        }
    }
    Ok(())
}

/// The same of the view at a place.
fn compare_view(
    alloc: Global,
    engine: &Engine,
    place: u64,
    meant: &PlainView,
) -> Result<(), Difference> {
    if engine.view_epoch(meant.name()) != Some(meant.epoch()) {
        return Err(Difference::Epoch(place));
    }
    let Some(view) = engine.view_state(meant.name()) else {
        return Err(Difference::Epoch(place));
    };
    match view.rows(alloc) {
        Ok(rows) => check_rows(alloc, place, rows, meant),
        Err(ShowFault::SumOutOfRange) => check_refusal(place, meant),
        Err(ShowFault::Memory) => Err(Difference::Memory),
    }
}

/// Whether the view means these rows, in whatever order.
fn check_rows(
    alloc: Global,
    place: u64,
    rows: RowList,
    meant: &PlainView,
) -> Result<(), Difference> {
    let shown = RowList::listed(in_order(alloc, rows.into_rows(alloc)?)?);
    let is_alike = are_meant(&shown, meant.rows()?);
    drop(shown);
    if is_alike {
        Ok(())
    } else {
        Err(Difference::View(place))
    }
}

/// Whether a total of the view cannot be shown.
fn check_refusal(place: u64, meant: &PlainView) -> Result<(), Difference> {
    match meant.rows() {
        Err(PlainFault::SumOutOfRange) => Ok(()),
        Err(fault) => Err(Difference::NotWorkedOut(fault)),
        Ok(_) => Err(Difference::View(place)),
    }
}
