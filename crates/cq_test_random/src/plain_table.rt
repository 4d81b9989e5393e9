//! A table as a list of rows, and the lists that it was before.
//!
//! Each write that a view may take in later leaves a list behind, so that the rows at an epoch are those of the first
//! list that stood there. They go with the table.
use cq_binder_rules::Bound;
use cq_model::Source;
use cq_test_plain::{Lent, PlainFault, left_by, updated};
use cq_values::{Row, copy_row};
use std::alloc::{AllocError, Global};

/// The rows that a table had up to an epoch.
#[derive(Drop)]
struct Past {
    last: u64,
    rows: Vec<Row>,
}

/// The rows of the table of a number, and those that it had before, oldest first.
#[derive(Drop)]
pub(crate) struct PlainTable {
    number: u64,
    rows: Vec<Row>,
    pasts: Vec<Past>,
}

impl PlainTable {
    pub(crate) fn new(alloc: Global, number: u64) -> PlainTable {
        PlainTable {
            number,
            rows: Vec::new(alloc),
            pasts: Vec::new(alloc),
        }
    }

    pub(crate) fn is_numbered(&self, number: u64) -> bool {
        self.number == number
    }

    /// The rows at an epoch.
    fn rows_at(&self, epoch: u64) -> &[Row] {
        for past in &self.pasts {
            if epoch <= past.last {
                return past.rows.as_slice();
            }
        }
        self.rows.as_slice()
    }

    /// Keeps the rows as those of this epoch, the last one before a write.
    pub(crate) fn keep(&mut self, alloc: Global, last: u64) -> Result<(), AllocError> {
        let rows = copies(alloc, &self.rows)?;
        self.pasts.push(Past { last, rows })?;
        Ok(())
    }

    /// Carries a write of this table out.
    pub(crate) fn write(&mut self, alloc: Global, command: &Bound) -> Result<(), PlainFault> {
        match command {
            Bound::Insert { rows, .. } => {
                let mut made = rows.copies(alloc)?;
                self.rows.append(&mut made)?;
            }
            Bound::Delete { condition, .. } => {
                self.rows = left_by(alloc, &self.rows, condition)?;
            }
            Bound::Update {
                assignments,
                condition,
                ..
            } => {
                self.rows = updated(alloc, &self.rows, assignments.as_slice(), condition)?;
            }
            _ => {}
        }
        Ok(())
    }
}

fn copies(alloc: Global, rows: &[Row]) -> Result<Vec<Row>, AllocError> {
    let mut made = Vec::new(alloc);
    for row in rows {
        made.push(copy_row(alloc, row.as_slice())?)?;
    }
    Ok(made)
}

/// The tables as they were at an epoch.
pub(crate) fn lent_at(
    alloc: Global,
    tables: &[PlainTable],
    epoch: u64,
) -> Result<Vec<Lent<'_>>, AllocError> {
    let mut lent = Vec::new(alloc);
    for table in tables {
        lent.push(Lent {
            source: Source::Table(table.number),
            rows: table.rows_at(epoch),
        })?;
    }
    Ok(lent)
}
