//! What holds of the rows of files.
ghost use Rattle.cq_csvio_read.specs.Laws.{PrintedRowsReadBack, ReadRowsFit};

/// The rows that a file makes in the columns of a table fit them.
pub fn read_rows_fit()
    ensures { ReadRowsFit }
{}

/// The rows of a table, printed without their header, are read back as they were.
pub fn printed_rows_read_back()
    ensures { PrintedRowsReadBack }
{}
