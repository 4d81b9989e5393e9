//! Rows that are cut to the columns that a query reads.
ghost use Rattle.std.specs.Option.{option_copied};
ghost use Rattle.std.specs.Prelude.{◌≡◌, ◌≤◌, IfOk, length};
ghost use Rattle.cq_model_bags.specs.Size.{IsClean};
ghost use Rattle.cq_table_columns.specs.Stored.{front_rows};
ghost use Rattle.cq_views.specs.Cut.{IsCutOnce, cut_widths, entry_of, width_at};

use cq_model::{Query, Source};
use cq_sides_weights::Weights;
use cq_table_columns::Front;
use cq_values::Seq;
use cq_views_columns::SourceColumns;
use std::alloc::{AllocError, Global};

/// The first entry of a source.
pub(crate) fn entry_of(columns: &[SourceColumns], source: Source) -> Option<&SourceColumns>
    ensures { option_copied result ≡ entry_of columns.now source }
{
    for entry in columns {
        if entry.source == source {
            return Some(entry);
        }
    }
    None
}

/// How many columns the rows of each source of a query are cut to, in the order of FROM.
pub(crate) fn cut_widths(
    alloc: Global,
    columns: &[SourceColumns],
    query: &Query,
) -> Result<Seq<usize>, AllocError>
    ensures { IfOk result (λ widths. widths ≡ cut_widths columns.now query.now) }
{
    let mut widths = Seq::new(alloc);
    widths.push(width_at(columns, query.first))?;
    for join in query.joins.as_slice() {
        widths.push(width_at(columns, join.source))?;
    }
    Ok(widths)
}

fn width_at(columns: &[SourceColumns], source: Source) -> usize
    ensures { result ≡ width_at columns.now source }
{
    match entry_of(columns, source) {
        Some(entry) => entry.columns.len(),
        None => 0,
    }
}

/// Each of these rows once, cut to columns.
pub(crate) fn cut_once(
    alloc: Global,
    columns: &[usize],
    front: &Front,
) -> Result<Weights, AllocError>
    requires { length (front_rows front.now) ≤ 1_024 }
    ensures bag { IfOk result (IsCutOnce columns.now (front_rows front.now)) }
    ensures clean { IfOk result (λ w. IsClean w.entries) }
{
    let mut once = Weights::new(alloc);
    once.reserve(front.len())?;
    for place in 0..front.len() {
        let short = front.row(place).cut(alloc, columns)?;
        once.add(short, 1)?;
    }
    let _len = once.len();
    Ok(once)
}
