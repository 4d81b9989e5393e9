//! What holds of kept views.
ghost use Rattle.cq_views_state.specs.Laws.{CountsWithinWork, RisesWhereChanged, StandingDependsOnSources};

/// A view that stands for the bags of the tables that FROM names stands for them however they are listed.
pub fn standing_depends_on_sources()
    ensures { StandingDependsOnSources }
{}

/// What [`crate::ViewState::prepare`] and [`crate::ViewState::commit`] count is within the work of the query's joins.
pub fn counts_are_within_work()
    ensures { CountsWithinWork }
{}

/// They count at least one where the bag of the query changes.
pub fn counts_rise_where_changed()
    ensures { RisesWhereChanged }
{}
