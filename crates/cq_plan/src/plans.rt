//! A query, and what of WHERE is asked where.
use cq_model::{CondTree, Order, Query};

/// A source that FROM names: how many columns stand before its own in a joined row, how many it has, and the parts of
/// WHERE that its rows are asked before any join.
#[derive(Drop)]
pub struct PlannedSource<'q> {
    pub before: usize,
    pub wide: usize,
    pub own: Vec<&'q CondTree>,
}

/// A query with its order, and what of WHERE is asked where.
#[derive(Drop)]
pub struct Plan<'q> {
    pub query: &'q Query,
    pub order: &'q Order,
    /// In the order of FROM.
    pub sources: Vec<PlannedSource<'q>>,
    /// Whether WHERE is asked of the joined rows: there is one, and no source is joined or some part names none alone.
    pub asks_behind: bool,
}
