//! Queries with their names resolved.
ghost use Rattle.std.specs.Prelude.{◌≡◌, IfOk};
ghost use Rattle.cq_model.specs.On.{left_columns, right_columns};

use crate::expr::{Cond, Expr};
use cq_model_bags::SortKey;
use cq_values::Seq;
use std::alloc::{AllocError, Global};

/// What a name in FROM stands for. A view stands for the bag of its query.
#[derive(Clone, Copy, Debug, PartialEq, Eq)]
pub enum Source {
    Table(u64),
    View(u64),
}

/// An equality of ON: a column of the rows joined so far, and one of the next source.
#[derive(Clone, Copy, Debug, PartialEq, Eq)]
pub struct Equality {
    pub left: usize,
    pub right: usize,
}

/// A source that is joined to those before it.
#[derive(Debug, Drop)]
pub struct Join {
    pub source: Source,
    pub on: Seq<Equality>,
}

/// What a group shows of its rows. But for `CountAll` only values other than NULL count, and for `CountDistinct` each of
/// them once.
#[derive(Debug, Drop)]
pub enum Aggregate {
    CountAll,
    Count(Expr),
    CountDistinct(Expr),
    Sum(Expr),
    Min(Expr),
    Max(Expr),
}

/// How joined rows become rows that items and HAVING read.
#[derive(Debug, Drop)]
pub enum Shape {
    /// Each row stands for itself.
    Plain,
    /// Each group gives a row: its key columns, then its aggregates. Without GROUP BY there are no keys and one group.
    Grouped {
        keys: Option<Seq<usize>>,
        aggregates: Seq<Aggregate>,
        having: Option<Cond>,
    },
}

/// A query up to its bag: `first` joined with each of `joins` in turn, then WHERE, groups, items and DISTINCT.
#[derive(Debug, Drop)]
pub struct Query {
    pub first: Source,
    pub joins: Seq<Join>,
    pub filter: Option<Cond>,
    pub shape: Shape,
    pub items: Seq<Expr>,
    pub distinct: bool,
}

/// ORDER BY and LIMIT, which make a list of a query's bag.
#[derive(Debug, Drop)]
pub struct Order {
    pub keys: Seq<SortKey>,
    pub limit: Option<u128>,
}

/// The columns of the rows joined so far that ON compares.
pub fn left_columns(alloc: Global, on: &[Equality]) -> Result<Vec<usize>, AllocError>
    ensures { IfOk result (λ columns. columns.items ≡ left_columns on.now) }
{
    on.iter().map(|equality| equality.left).collect(alloc)
}

/// The columns of the next source that ON compares.
pub fn right_columns(alloc: Global, on: &[Equality]) -> Result<Vec<usize>, AllocError>
    ensures { IfOk result (λ columns. columns.items ≡ right_columns on.now) }
{
    on.iter().map(|equality| equality.right).collect(alloc)
}
