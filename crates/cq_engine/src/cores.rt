//! The view that has the answer to a query at hand.
ghost use Rattle.std.specs.List.{find};
ghost use Rattle.std.specs.Prelude.{◌≡◌, option_map, position};
ghost use Rattle.cq_engine.specs.Sources.{core_name, view_in};
ghost use Rattle.cq_engine_tables.specs.Views.{views_of};
ghost use Rattle.cq_model_core.specs.Core.{has_core};
ghost use Rattle.cq_model_step.specs.Named.{core_place};

use crate::answer_source::AnswerSource;
use cq_engine_tables::View;
use cq_model::Query;
use cq_plan_core::same_core;

/// Where the first created view stands whose core the query has. It takes no memory.
#[tactic(auto, using(crate::proofs::CorePlaces::core_placed))]
pub(crate) fn core_place(views: &[View], query: &Query) -> Option<usize>
    ensures { result ≡ core_place query.now (views_of views.now) }
{
    first_with_core(views, query)
}

fn first_with_core(views: &[View], query: &Query) -> Option<usize>
    ensures { result ≡ position (λ v. has_core query.now v.kept.query) views.now }
{
    views.iter().position(|v| same_core(query, v.query()))
}

/// Where the answer to a query comes from.
#[tactic(auto, using(crate::proofs::CorePlaces::core_told))]
pub(crate) fn source_of<'a>(views: &'a [View], query: &Query) -> AnswerSource<'a>
    ensures { view_in result ≡ core_name query.now (views_of views.now) }
{
    match view_with_core(views, query) {
        Some(view) => AnswerSource::View(view.name()),
        None => AnswerSource::Tables,
    }
}

fn view_with_core<'a>(views: &'a [View], query: &Query) -> Option<&'a View>
    ensures { option_map (λ v. v.now) result ≡ find (λ v. has_core query.now v.kept.query) views.now }
{
    views.iter().find(|v| same_core(query, v.query()))
}
