//! Views that take changes in.
ghost use Rattle.std.specs.Prelude.{◌≡◌, ◌≤◌, OnErr, OnOk};
ghost use Rattle.cq_engine_queue.specs.Counts.{AllCount, CountsIn, MayBeginIn};
ghost use Rattle.cq_engine_queue.specs.Goal.{AreOnTheWay, AreThere, MayBeginBefore};
ghost use Rattle.cq_engine_queue.specs.History.{CanAllTakeOn, CanTakeOn, IsTakenOn, StayRight, StaysRight};
ghost use Rattle.cq_engine_queue.specs.Taking.{CanTakeIn, StaysWithin, TakesChange};
ghost use Rattle.cq_engine_tables.specs.Taking.{IsSame};

use crate::change::Change;
use crate::goal::Goal;
use crate::queue::Queue;
use cq_engine_tables::View;
use cq_views::{
    TableChange, counts_are_within_work, counts_rise_where_changed, standing_depends_on_sources,
    work_depends_on_sources,
};
use std::alloc::{AllocError, Global};

/// Takes each view on to where it is to go, of which one is the present. Where memory is wanting each stays somewhere on
/// its way.
pub fn take_all_on(
    alloc: Global,
    views: &mut Vec<View>,
    queue: &Queue,
    goal: &Goal<'_>,
    now: u64,
) -> Result<(), AllocError>
    requires { CanAllTakeOn queue.now now views.old.items }
    ensures ok { OnOk result (AreThere goal.now now views.old views.new) }
    ensures way { AreOnTheWay goal.now now views.old views.new }
    ensures right { StayRight queue.now views.old.items views.new.items }
    ensures counts { OnOk result (AllCount queue.now views.old.items views.new.items) }
    ensures begun { MayBeginBefore goal.now now queue.now views.old.items views.new.items }
{
    for place in 0..views.len() {
        let to = goal.of(&views[place], place, now);
        take_on(alloc, &mut views[place], queue, to)?;
    }
    Ok(())
}

/// Takes a view on to an epoch of the queue, change by change. Where memory is wanting it stays at one between.
fn take_on(alloc: Global, view: &mut View, queue: &Queue, to: u64) -> Result<(), AllocError>
    requires can { CanTakeOn queue.now to view.old }
    requires ahead { view.old.kept.state.epoch ≤ to }
    ensures ok { OnOk result (view.new.kept.state.epoch ≡ to) }
    ensures on { IsTakenOn to view.old view.new }
    ensures right { StaysRight queue.now view.old view.new }
    ensures counts { OnOk result (CountsIn queue.now view.old view.new) }
    ensures begun { MayBeginIn queue.now to view.old view.new }
{
    standing_depends_on_sources();
    work_depends_on_sources();
    while view.epoch() < to {
        let place = view.epoch() - queue.passed();
        take_in(alloc, view, queue.get(place as usize))?;
    }
    Ok(())
}

/// Takes the change that comes next in: the rows of a table that the view reads, and of another one the epoch alone. An
/// error leaves it as it was.
fn take_in(alloc: Global, view: &mut View, change: &Change) -> Result<(), AllocError>
    requires { CanTakeIn view.old change.now }
    ensures ok { OnOk result (TakesChange change.now view.old view.new) }
    ensures err { OnErr result (IsSame view.old view.new) }
    ensures within { OnErr result (StaysWithin change.now view.old view.new) }
{
    standing_depends_on_sources();
    counts_are_within_work();
    counts_rise_where_changed();
    if !view.is_on(change.table()) {
        view.commit(None);
        return Ok(());
    }
    let (gone, come) = change.rows(alloc)?;
    let lent = TableChange {
        table: change.table(),
        gone: &gone,
        come: &come,
    };
    let pending = view.prepare(alloc, &lent)?;
    view.commit(pending);
    Ok(())
}
