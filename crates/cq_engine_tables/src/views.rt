//! Views under their names.
ghost use Rattle.std.specs.Prelude.{◌≡◌, ◌<◌, length, position};
ghost use Rattle.std.specs.List.{list_any, remove};
ghost use Rattle.cq_values.specs.Texts.{is_text};
ghost use Rattle.cq_binder_rules.specs.Refusal.{is_used};
ghost use Rattle.cq_model_state.specs.State.{view_place};
ghost use Rattle.cq_views_model.specs.Query.{reads};
ghost use Rattle.cq_engine_tables.specs.Views.{views_of};

use crate::view::View;

/// Where the view of a name stands.
#[tactic(auto, using(crate::proofs::Named::place_named))]
pub fn view_place(views: &[View], name: &str) -> Option<usize>
    ensures { result ≡ view_place name.now (views_of views.now) }
{
    position_of(views, name)
}

/// Takes the view at a place away.
pub fn drop_view_at(views: &mut Vec<View>, place: usize)
    requires { place < length views.old.items }
    ensures { views.new.items ≡ remove views.old.items place }
{
    drop(views.remove(place));
}

/// Whether a view stands on the table of a number.
#[tactic(auto, using(crate::proofs::Named::used_by))]
pub fn is_used(views: &[View], table: u64) -> bool
    ensures { result ≡ is_used table (views_of views.now) }
{
    is_any_on(views, table)
}

fn position_of(views: &[View], name: &str) -> Option<usize>
    ensures { result ≡ position (λ v. is_text v.name name.now) views.now }
{
    views.iter().position(|v| v.is_named(name))
}

fn is_any_on(views: &[View], table: u64) -> bool
    ensures { result ≡ list_any (λ v. reads table v.kept.query) views.now }
{
    views.iter().any(|v| v.is_on(table))
}
