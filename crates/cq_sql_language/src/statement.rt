//! Statements as trees.
//!
//! The reader of `cq_sql` makes a [`Statement`] of a piece, and the binder reads it; neither changes one. It owns its
//! names, texts and lists, so it outlives the script. The rows of an INSERT stand in one list of constants.
use crate::constant_rows::ConstantRows;
use crate::written::{ColumnName, SqlExpr};
use cq_values::{ColumnDef, Seq, Text};

/// A whole number with its sign. The greatest magnitude stands for every number from it on.
#[derive(Clone, Copy, Debug, PartialEq, Eq)]
pub struct Literal {
    pub is_negative: bool,
    pub magnitude: u128,
}

/// A constant of an INSERT.
#[derive(Debug, Drop)]
pub enum Constant {
    Null,
    Number(Literal),
    Text(Text),
    /// What stands behind DATE.
    Date(Text),
}

/// What FROM names: a table or a view, and the name that it is known by where it has one of its own here.
#[derive(Debug, Drop)]
pub struct FromSource {
    pub name: Text,
    pub alias: Option<Text>,
}

/// An equality of ON.
#[derive(Debug, Drop)]
pub struct OnEquality {
    pub left: ColumnName,
    pub right: ColumnName,
}

/// A source that is joined to those before it where each equality holds.
#[derive(Debug, Drop)]
pub struct JoinedSource {
    pub source: FromSource,
    pub on: Seq<OnEquality>,
}

/// An item of a SELECT, with the name behind AS.
#[derive(Debug, Drop)]
pub struct SelectItem {
    pub value: SqlExpr,
    pub alias: Option<Text>,
}

/// A column of the result.
#[derive(Debug, Drop)]
pub enum OutputColumn {
    Named(Text),
    /// By its place, from 1.
    At(u128),
}

/// What ORDER BY sorts by.
#[derive(Debug, Drop)]
pub struct OrderKey {
    pub column: OutputColumn,
    pub is_descending: bool,
}

/// A query. Lists that may be left out are empty then.
#[derive(Debug, Drop)]
pub struct Select {
    pub is_distinct: bool,
    pub items: Seq<SelectItem>,
    pub first: FromSource,
    pub joins: Seq<JoinedSource>,
    /// WHERE.
    pub condition: Option<SqlExpr>,
    /// The columns behind GROUP BY.
    pub group: Seq<ColumnName>,
    pub having: Option<SqlExpr>,
    pub order: Seq<OrderKey>,
    /// The number behind LIMIT.
    pub limit: Option<u128>,
}

/// What UPDATE sets a column to.
#[derive(Debug, Drop)]
pub struct SetClause {
    pub column: Text,
    pub value: SqlExpr,
}

/// A statement, as it was written.
#[derive(Debug, Drop)]
pub enum Statement {
    CreateTable {
        name: Text,
        columns: Seq<ColumnDef>,
        /// The columns behind SORT BY.
        sort: Seq<Text>,
    },
    DropTable(Text),
    CreateView {
        name: Text,
        query: Select,
    },
    DropView(Text),
    Insert {
        table: Text,
        rows: ConstantRows,
    },
    Delete {
        table: Text,
        condition: Option<SqlExpr>,
    },
    Update {
        table: Text,
        assignments: Seq<SetClause>,
        condition: Option<SqlExpr>,
    },
    /// Takes each record of a file as a row.
    Copy {
        table: Text,
        file: Text,
    },
    Select(Select),
    /// Brings so many rows of the write store to the read store.
    Move {
        table: Text,
        rows: u128,
    },
    Merge(Text),
    /// Takes a view so many changes on.
    Refresh {
        view: Text,
        changes: u128,
    },
}
