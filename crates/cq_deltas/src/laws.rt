//! What holds of groups that stand for rows, and of counted values.
ghost use Rattle.cq_deltas.specs.Laws.{MoreIsAdded, RangesShow};

/// The groups can be shown exactly where the totals of their rows are in range.
pub fn ranges_show()
    ensures { RangesShow }
{}

/// A row whose weight is added in order is in the bag so many times more.
pub fn more_is_added()
    ensures { MoreIsAdded }
{}
