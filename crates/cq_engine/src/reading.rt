//! SELECT at the present.
//!
//! Where a view has the core of the query, it has the answer at hand: it is taken on, and its rows are listed. Else each view
//! that FROM names is.
ghost use Rattle.std.specs.Prelude.{◌⊎◌, ◌≡◌, ℕ, IfErr, None, OnErr, OnOk, Some};
ghost use Rattle.cq_binder_rules.specs.declared.fault.Fault.TheVariants.{Memory};
ghost use Rattle.cq_engine.specs.Reading.{AreNamedTaken, AreNamedThere, CanSelect, CountsNamed, SelectsAs};
ghost use Rattle.cq_engine_queue.specs.History.{StayRight};
ghost use Rattle.cq_engine_tables.specs.Views.{views_of};
ghost use Rattle.cq_model_step.specs.Named.{core_place as is_core_place};

use crate::cores::core_place;
use cq_binder_rules::Fault;
use cq_engine_answers::{select_at_hand, select_from};
use cq_engine_queue::{Goal, Queue, take_all_on};
use cq_engine_tables::{NamedTable, View};
use cq_model::{Order, Query};
use cq_model_core::core_is_told;
use cq_values_rows::RowList;
use cq_views::standing_depends_on_sources;
use std::alloc::Global;

/// Takes the views that a query names on to the present, and lists its answer.
pub(crate) fn select_at_present(
    alloc: Global,
    tables: &[NamedTable],
    views: &mut Vec<View>,
    queue: &Queue,
    query: &Query,
    order: &Order,
    now: u64,
) -> Result<RowList, Fault>
    requires { CanSelect tables.now views.old.items queue.now now query.now }
    ensures selects { SelectsAs tables.now views.old.items query.now order.now result }
    ensures ok { OnOk result (AreNamedThere query.now now views.old views.new) }
    ensures way { AreNamedTaken query.now now views.old views.new }
    ensures right { StayRight queue.now views.old.items views.new.items }
    ensures counts { CountsNamed query.now now queue.now views.old views.new result }
{
    match core_place(views, query) {
        Some(place) => select_from_view(alloc, tables, views, place, queue, query, order, now),
        None => select_from_sources(alloc, tables, views, queue, query, order, now),
    }
}

/// Takes the view that has the answer at hand on to the present, and lists its rows.
fn select_from_view(
    alloc: Global,
    tables: &[NamedTable],
    views: &mut Vec<View>,
    place: usize,
    queue: &Queue,
    query: &Query,
    order: &Order,
    now: u64,
) -> Result<RowList, Fault>
    requires can { CanSelect tables.now views.old.items queue.now now query.now }
    requires at_hand { is_core_place query.now (views_of views.old.items) ≡ Some place }
    ensures selects { SelectsAs tables.now views.old.items query.now order.now result }
    ensures ok { OnOk result (AreNamedThere query.now now views.old views.new) }
    ensures way { AreNamedTaken query.now now views.old views.new }
    ensures right { StayRight queue.now views.old.items views.new.items }
    ensures counts { CountsNamed query.now now queue.now views.old views.new result }
{
    standing_depends_on_sources();
    core_is_told();
    take_all_on(alloc, views, queue, &Goal::At(place), now)?;
    select_at_hand(alloc, tables, views, place, query, order)
}

/// Takes the views that FROM names on to the present, and lists the answer that is worked out on its sources.
fn select_from_sources(
    alloc: Global,
    tables: &[NamedTable],
    views: &mut Vec<View>,
    queue: &Queue,
    query: &Query,
    order: &Order,
    now: u64,
) -> Result<RowList, Fault>
    requires can { CanSelect tables.now views.old.items queue.now now query.now }
    requires none { is_core_place query.now (views_of views.old.items) ≡ None }
    ensures selects { SelectsAs tables.now views.old.items query.now order.now result }
    ensures ok { OnOk result (AreNamedThere query.now now views.old views.new) }
    ensures way { AreNamedTaken query.now now views.old views.new }
    ensures right { StayRight queue.now views.old.items views.new.items }
    ensures counts { CountsNamed query.now now queue.now views.old views.new result }
{
    standing_depends_on_sources();
    take_all_on(alloc, views, queue, &Goal::Present(query), now)?;
    select_from(alloc, tables, views, query, order)
}
