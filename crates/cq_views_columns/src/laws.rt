//! What holds of a query whose columns are renamed.
ghost use Rattle.cq_views_columns.specs.Laws.{NarrowRowsGoAlong, RenamedMeansSame};

/// With its columns renamed to where they stand among those that it reads, a query means over narrower rows what it
/// means over the whole ones.
pub fn renamed_means_same()
    ensures { RenamedMeansSame }
{}

/// The narrower rows of the sources change as these do, and are a bag, and stored, where these are.
pub fn narrow_rows_go_along()
    ensures { NarrowRowsGoAlong }
{}
