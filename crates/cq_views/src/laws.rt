//! What holds of kept views.
ghost use Rattle.cq_views.specs.Laws.{CountsWithinWork, RisesWhereChanged, StandingDependsOnSources, WorkDependsOnSources};

/// A view that stands for the bags of the tables that FROM names stands for them however they are listed.
pub fn standing_depends_on_sources()
    ensures { StandingDependsOnSources }
{}

/// What [`crate::KeptView::prepare`] and [`crate::KeptView::commit`] count is within the work of the joins of the view's
/// query for the changes, over its tables' whole rows.
pub fn counts_are_within_work()
    ensures { CountsWithinWork }
{}

/// They count at least one where the bag of the view's query changes.
pub fn counts_rise_where_changed()
    ensures { RisesWhereChanged }
{}

/// The work of the joins of a view's query depends on the bags of the tables that FROM names alone.
pub fn work_depends_on_sources()
    ensures { WorkDependsOnSources }
{}
