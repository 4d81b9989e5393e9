//! What holds of rows that are read one after the other.
ghost use Rattle.cq_values_rows.specs.RowList.{RowsComeInTurn};

/// With the row that [`crate::RowList::row`] gives at a place, the rows so far are one more.
pub fn rows_come_in_turn()
    ensures { RowsComeInTurn }
{}
