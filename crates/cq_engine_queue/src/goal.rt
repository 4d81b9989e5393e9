//! To which epochs views are to be taken on.
ghost use Rattle.std.specs.List.{list_any};
ghost use Rattle.std.specs.Prelude.{◌+◌, ◌≡◌, ◌≤◌, min};
ghost use Rattle.cq_engine_queue.specs.Goal.{goal_of};
ghost use Rattle.cq_engine_tables.specs.Views.{view_of};
ghost use Rattle.cq_model.specs.Views.{is_view, sources_of};

use cq_engine_tables::View;
use cq_model::{Join, Query, Source};

/// Which views are to be taken on, and how far.
#[derive(Clone, Copy)]
pub enum Goal<'a> {
    /// Each view that FROM names, to the present.
    Present(&'a Query),
    /// The view at a place, to the present.
    At(usize),
    /// The view at a place, by so many changes, or to the present where fewer are left.
    By(usize, u128),
}

impl Goal<'_> {
    /// To which epoch the view at a place is to be taken on.
    pub(crate) fn of(&self, view: &View, place: usize, now: u64) -> u64
        requires { view.now.kept.state.epoch ≤ now }
        ensures { result ≡ goal_of self.now now place (view_of view.now) }
    {
        match self {
            Goal::Present(query) => if is_named(*query, place) {
                now
            } else {
                view.epoch()
            },
            Goal::At(at) => if *at == place { now } else { view.epoch() },
            Goal::By(at, changes) => if *at == place {
                taken_by(view.epoch(), *changes, now)
            } else {
                view.epoch()
            },
        }
    }
}

/// So many epochs further, but not beyond the present.
fn taken_by(epoch: u64, changes: u128, now: u64) -> u64
    requires { epoch ≤ now }
    ensures { result ≡ min (epoch + changes) now }
{
    if changes < u128::from(now - epoch) {
        epoch + changes as u64
    } else {
        now
    }
}

/// Whether FROM names the view at a place.
fn is_named(query: &Query, place: usize) -> bool
    ensures { result ≡ list_any (is_view place) (sources_of query.now) }
{
    is_view(query.first, place) || is_joined(query.joins.as_slice(), place)
}

fn is_joined(joins: &[Join], place: usize) -> bool
    ensures { result ≡ list_any (λ join. is_view place join.source) joins.now }
{
    joins.iter().any(|join| is_view(join.source, place))
}

fn is_view(source: Source, place: usize) -> bool
    ensures { result ≡ is_view place source }
{
    match source {
        Source::Table(_) => false,
        Source::View(at) => at == place as u64,
    }
}
