//! What holds of commands that were bound.
ghost use Rattle.cq_binder.specs.Laws.{CheckedRowsFit};

/// The row of an INSERT whose checks have no fault fits the columns of its table.
pub fn checked_rows_fit()
    ensures { CheckedRowsFit }
{}
