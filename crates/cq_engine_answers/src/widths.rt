//! How many columns the sources have that FROM names.
ghost use Rattle.std.specs.List.{AllByRecursion};
ghost use Rattle.std.specs.Prelude.{◌≡◌, ℕ, IfOk, length};
ghost use Rattle.cq_model_state.specs.State.{AreNumbered};
ghost use Rattle.cq_engine_answers.specs.Narrow.{source_sizes, source_widths};
ghost use Rattle.cq_engine_answers.specs.Reading.{IsSourceThere};
ghost use Rattle.cq_engine_tables.specs.HeldTables.{tables_of};
ghost use Rattle.cq_engine_tables.specs.Views.{views_of};

use cq_engine_tables::{NamedTable, View, place_numbered};
use cq_model::Source;
use std::alloc::{AllocError, Global};

/// How many columns each source has.
pub(crate) fn widths_of(
    alloc: Global,
    tables: &[NamedTable],
    views: &[View],
    sources: &[Source],
) -> Result<Vec<usize>, AllocError>
    requires numbered { (next : ℕ) × AreNumbered (tables_of tables.now) next }
    requires there { AllByRecursion (IsSourceThere (tables_of tables.now) (views_of views.now)) sources.now }
    ensures { IfOk result (λ w. w.items ≡ source_widths (tables_of tables.now) (views_of views.now) sources.now) }
{
    let mut widths = Vec::new(alloc);
    for source in sources {
        widths.push(width_of(tables, views, *source))?;
    }
    Ok(widths)
}

/// How many columns a source has.
fn width_of(tables: &[NamedTable], views: &[View], source: Source) -> usize
    requires numbered { (next : ℕ) × AreNumbered (tables_of tables.now) next }
    requires there { IsSourceThere (tables_of tables.now) (views_of views.now) source }
    ensures { result ≡ length (source_sizes (tables_of tables.now) (views_of views.now) source) }
{
    match source {
        Source::Table(number) => {
            let place = place_numbered(tables, number);
            tables[place].table().columns().len()
        }
        Source::View(place) => views[place as usize].query().items.len(),
    }
}
