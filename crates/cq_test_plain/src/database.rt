//! What a query is asked of.
use cq_model::Query;
use cq_values::{Row, Seq};

/// Tables by their rows, and views by their queries. A name's number is its place, and past the end there is no row.
#[derive(Debug, Drop)]
pub struct Database {
    pub tables: Seq<Seq<Row>>,
    pub views: Seq<Query>,
}
