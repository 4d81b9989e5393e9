//! Expressions as they are written, with the names of columns.
//!
//! The reader makes an [`ExprNode`], and the binder walks through it and puts places for its names. A chain of one
//! operator is a list in its node, so what goes down a tree needs a stack as deep as the parentheses are, however long
//! it is.
ghost use Rattle.std.specs.Prelude.{◌≡◌};
ghost use Rattle.cq_sql_language.specs.Written.{written};

use cq_values::{Comparison, DayPart, Text};
use std::marker::Model;

/// The name of a column, with that of its source where it is written before a dot.
#[derive(Debug, Drop)]
pub struct ColumnName {
    pub source: Option<Text>,
    pub name: Text,
}

/// What an aggregate tells of the values of its argument.
#[derive(Clone, Copy, Debug, PartialEq, Eq)]
pub enum AggregateFunction {
    Count,
    /// COUNT(DISTINCT ..).
    CountDistinct,
    Sum,
    Min,
    Max,
}

/// What stands before a later term of a sum.
#[derive(Clone, Copy, Debug, PartialEq, Eq)]
pub enum Sign {
    Plus,
    Minus,
}

/// An expression as it is written, a value or a condition. A chain has its first part and those behind it, so that a
/// long one is not deep; a pair of parentheses is a node. The `bool` in a test tells whether NOT stands in it.
#[derive(Debug, Drop)]
pub enum ExprNode {
    Number(u128),
    Text(Text),
    Date(Text),
    Null,
    Column(ColumnName),
    Extract(DayPart, Box<ExprNode>),
    /// COUNT(*).
    CountAll,
    Aggregate(AggregateFunction, Box<ExprNode>),
    Parens(Box<ExprNode>),
    Negative(Box<ExprNode>),
    Product(Box<ExprNode>, Vec<ExprNode>),
    /// The later terms, with the sign of each.
    Sum(Box<ExprNode>, Vec<Sign>, Vec<ExprNode>),
    Compare(Comparison, Box<ExprNode>, Box<ExprNode>),
    IsNull(bool, Box<ExprNode>),
    /// The value, the least and the greatest that pass.
    Between(bool, Box<ExprNode>, Box<ExprNode>, Box<ExprNode>),
    In(bool, Box<ExprNode>, Vec<ExprNode>),
    Like(bool, Box<ExprNode>, Text),
    Not(Box<ExprNode>),
    And(Box<ExprNode>, Vec<ExprNode>),
    Or(Box<ExprNode>, Vec<ExprNode>),
}

/// An expression as it is written: contracts see it as a tree whose chains group to the left.
#[derive(Debug, Drop)]
pub struct SqlExpr {
    node: ExprNode,
}

impl Model for SqlExpr {
    ghost use Rattle.std.specs.Coded.{codes};
    ghost use Rattle.cq_sql_language.specs.Codes.{written_code};
    ghost use Rattle.cq_sql_language.specs.Written.{Written, written};

    ghost Value = { Written };

    ghost coded = { written_code (Prim.hlevel codes) };

    ghost view = { λ e. written e.node };
}

impl SqlExpr {
    pub fn new(node: ExprNode) -> SqlExpr
        ensures { result ≡ written node }
    {
        SqlExpr { node }
    }

    pub fn node(&self) -> &ExprNode
        ensures { written result.now ≡ self.now }
    {
        &self.node
    }
}
