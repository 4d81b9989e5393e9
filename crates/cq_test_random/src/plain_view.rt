//! A view at its epoch, worked out anew.
use crate::plain_table::{PlainTable, lent_at};
use cq_model::{Order, Query};
use cq_test_plain::{PlainFault, answer_on, listing};
use cq_values::{Row, Seq, Text};
use std::alloc::{AllocError, Global};

/// A view under its name: the epoch that it stands at, and the rows that its query means on the tables as they were then,
/// in the one order of such lists. It is fresh until its epoch has been counted.
#[derive(Drop)]
pub(crate) struct PlainView {
    name: Text,
    query: Query,
    epoch: u64,
    rows: Result<Vec<Row>, PlainFault>,
    is_fresh: bool,
}

impl PlainView {
    /// The view of a query that is created at this epoch, the present one.
    pub(crate) fn new(
        alloc: Global,
        tables: &[PlainTable],
        name: Text,
        query: Query,
        now: u64,
    ) -> PlainView {
        let rows = rows_at(alloc, tables, &query, now);
        PlainView {
            name,
            query,
            epoch: now,
            rows,
            is_fresh: true,
        }
    }

    pub(crate) fn name(&self) -> &str {
        self.name.as_str()
    }

    pub(crate) fn query(&self) -> &Query {
        &self.query
    }

    pub(crate) fn epoch(&self) -> u64 {
        self.epoch
    }

    pub(crate) fn rows(&self) -> Result<&[Row], PlainFault> {
        match &self.rows {
            Ok(rows) => Ok(rows.as_slice()),
            Err(fault) => Err(*fault),
        }
    }

    /// Takes the view on to an epoch.
    pub(crate) fn take_on(&mut self, alloc: Global, tables: &[PlainTable], epoch: u64) {
        if self.epoch != epoch {
            self.rows = rows_at(alloc, tables, &self.query, epoch);
            self.epoch = epoch;
            self.is_fresh = true;
        }
    }

    /// Whether the view has come to its epoch since this was asked last.
    pub(crate) fn has_come(&mut self) -> bool {
        let is_fresh = self.is_fresh;
        self.is_fresh = false;
        is_fresh
    }
}

/// The rows that a query of tables means at an epoch.
fn rows_at(
    alloc: Global,
    tables: &[PlainTable],
    query: &Query,
    epoch: u64,
) -> Result<Vec<Row>, PlainFault> {
    let lent = lent_at(alloc, tables, epoch)?;
    let rows = answer_on(alloc, &lent, query)?;
    Ok(in_order(alloc, rows)?)
}

/// The rows of a bag in the order of all columns.
pub(crate) fn in_order(alloc: Global, rows: Vec<Row>) -> Result<Vec<Row>, AllocError> {
    let order = Order {
        keys: Seq::new(alloc),
        limit: None,
    };
    let list = listing(rows, &order);
    drop(order);
    list
}
