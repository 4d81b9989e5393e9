//! What an UPDATE sets.
use crate::expr::Expr;

/// A column that an UPDATE sets, and the expression of the old row that it is set to.
#[derive(Debug, Drop)]
pub struct Assignment {
    pub column: usize,
    pub value: Expr,
}
