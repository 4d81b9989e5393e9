//! Statements with their names resolved.
//!
//! `bind` makes a [`Bound`] of a statement, and the engine carries it out, at once: its numbers of tables and places of
//! views are those of the state that it was bound in. It owns its rows and its query, and knows no name but those that
//! it makes.
use cq_model::{Assignment, Cond, Order, Query};
use cq_values::{ColumnDef, Seq, Text};
use cq_writestore_rows::NewRows;

/// What an accepted statement tells the engine to do. A table goes by its number, and a view by its place among the
/// views. INSERT and COPY are both `Insert`, since the rows of a file are read while it is walked through.
#[derive(Drop)]
pub enum Bound {
    CreateTable {
        name: Text,
        columns: Seq<ColumnDef>,
        sort: Seq<usize>,
    },
    DropTable(u64),
    CreateView {
        name: Text,
        columns: Seq<ColumnDef>,
        query: Query,
    },
    DropView(usize),
    Insert {
        table: u64,
        rows: NewRows,
    },
    Delete {
        table: u64,
        condition: Option<Cond>,
    },
    Update {
        table: u64,
        assignments: Seq<Assignment>,
        condition: Option<Cond>,
    },
    Select {
        header: Seq<Text>,
        query: Query,
        order: Order,
    },
    /// Brings so many rows of the write store to the read store.
    Move {
        table: u64,
        rows: u128,
    },
    Merge(u64),
    /// Takes a view so many changes on.
    Refresh {
        view: usize,
        changes: u128,
    },
}
