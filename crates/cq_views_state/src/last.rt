//! What a view keeps behind its joins.
ghost use Rattle.std.specs.Prelude.{◌≡◌, List, []};
ghost use Rattle.cq_model.specs.declared.query.Aggregate.{Aggregate};
ghost use Rattle.cq_views_state.specs.Last.{CanPut, GoesOn, StandsBehind, seen};

use cq_deltas::{GroupChange, Groups};
use cq_model::{Query, Shape};
use cq_sides_weights::Weights;
use std::alloc::{AllocError, Global};

/// What a view keeps behind its joins: the groups of the joined rows, or their images with their weights.
#[derive(Drop)]
pub(crate) enum Last {
    Groups(Groups),
    Images(Weights),
}

/// What a change of the joined rows adds to them.
#[derive(Drop)]
pub(crate) enum LastChange {
    Groups(GroupChange),
    Images(Weights),
}

impl Last {
    /// What is kept of no rows.
    pub(crate) fn empty(alloc: Global, query: &Query) -> Last
        ensures { StandsBehind query.now [] result }
    {
        match &query.shape {
            Shape::Plain => Last::Images(Weights::new(alloc)),
            Shape::Grouped { .. } => Last::Groups(Groups::new(alloc)),
        }
    }

    /// Puts a change in. It takes no memory, and cannot fail.
    pub(crate) fn commit(&mut self, change: LastChange)
        requires { CanPut self.old change }
        ensures { GoesOn self.old change self.new }
    {
        match self {
            Last::Groups(groups) => match change {
                LastChange::Groups(change) => groups.open().take(change),
                LastChange::Images(_) => unreachable!(),
            },
            Last::Images(images) => match change {
                LastChange::Images(change) => images.put_all(change),
                LastChange::Groups(_) => unreachable!(),
            },
        }
    }

    /// Puts groups in the order of their keys, in which their rows are mostly listed.
    pub(crate) fn sort(&mut self) -> Result<(), AllocError>
        ensures { (aggregates : List Aggregate) → seen aggregates self.new ≡ seen aggregates self.old }
    {
        match self {
            Last::Groups(groups) => groups.open().sort(),
            Last::Images(_) => Ok(()),
        }
    }
}
