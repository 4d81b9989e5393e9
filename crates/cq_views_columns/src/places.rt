//! Where the columns that are kept stand in the narrower rows.
ghost use Rattle.std.specs.Prelude.{◌+◌, ◌<◌, ◌^◌, ◌≡◌, IfOk, OnOk, sum};
ghost use Rattle.cq_views_columns.specs.Narrow.{joined_places};
ghost use Rattle.cq_views_columns.specs.Places.{PutsPlaces};

use crate::columns::{SourceColumns, columns_at};
use cq_model::Source;
use std::alloc::{AllocError, Global};

/// The places in the joined rows of the columns that are kept of each source.
pub(crate) fn places_of(
    alloc: Global,
    columns: &[SourceColumns],
    sources: &[Source],
    widths: &[usize],
) -> Result<Vec<usize>, AllocError>
    requires { sum widths.now < 2 ^ 64 }
    ensures { IfOk result (λ v. v.items ≡ joined_places columns.now sources.now widths.now) }
{
    let mut places = Vec::new(alloc);
    let mut before = 0;
    for (source, wide) in sources.iter().zip(widths) {
        add_places(columns_at(columns, *source), before, *wide, &mut places)?;
        before += *wide;
    }
    Ok(places)
}

fn add_places(
    columns: &[usize],
    before: usize,
    wide: usize,
    places: &mut Vec<usize>,
) -> Result<(), AllocError>
    requires { before + wide < 2 ^ 64 }
    ensures { OnOk result (PutsPlaces before wide columns.now places.old places.new) }
{
    for column in columns {
        if *column < wide {
            places.push(before + *column)?;
        }
    }
    Ok(())
}
