//! The language: tokens, expressions and statements as trees, and how all of them are spelled.
//!
//! A text is cut into lexemes that make tokens, and a list of tokens is what at most one tree is spelled as. The
//! reader is proved against these definitions.
#![tactic(auto)]

mod constant_rows;
mod statement;
mod token;
mod written;

pub use constant_rows::ConstantRows;
pub use statement::{
    Constant, FromSource, JoinedSource, Literal, OnEquality, OrderKey, OutputColumn, Select,
    SelectItem, SetClause, Statement,
};
pub use token::{Keyword, Symbol, Token};
pub use written::{AggregateFunction, ColumnName, ExprNode, Sign, SqlExpr};
