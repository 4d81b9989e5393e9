//! Expressions and conditions over the columns of a row, by their places.
ghost use Rattle.std.specs.Prelude.{◌≡◌};
ghost use Rattle.cq_model.specs.Expr as terms;
ghost use Rattle.cq_model.specs.Trees.{cond_of, expr_of};

use cq_values::{Comparison, DayPart, Text, Value};
use std::marker::Model;

/// An expression with a value, as a tree. A chain has its first part and those behind it, so that a long one is not deep. A
/// difference `a - b` is the sum of `a` and the negated `b`.
#[derive(Debug, Drop)]
pub enum ExprTree {
    Column(usize),
    Literal(Value),
    Negate(Box<ExprTree>),
    Sum(Box<ExprTree>, Vec<ExprTree>),
    Product(Box<ExprTree>, Vec<ExprTree>),
    Extract(DayPart, Box<ExprTree>),
}

/// An expression with a truth, as a tree. `Between` has the value, the least and the greatest that pass.
#[derive(Debug, Drop)]
pub enum CondTree {
    Compare(Comparison, ExprTree, ExprTree),
    IsNull(ExprTree),
    Between(ExprTree, ExprTree, ExprTree),
    In(ExprTree, Vec<ExprTree>),
    Like(ExprTree, Text),
    Not(Box<CondTree>),
    And(Box<CondTree>, Vec<CondTree>),
    Or(Box<CondTree>, Vec<CondTree>),
}

/// An expression with a value: contracts see it with its chains grouped to the left.
#[derive(Debug, Drop)]
pub struct Expr {
    tree: ExprTree,
}

impl Model for Expr {
    ghost use Rattle.std.specs.Coded.{codes};
    ghost use Rattle.cq_model.specs.Expr as terms;
    ghost use Rattle.cq_model.specs.ExprCodes.{expr_code};
    ghost use Rattle.cq_model.specs.Trees.{expr_of};

    ghost Value = { terms.Expr };

    ghost coded = { expr_code (Prim.hlevel codes) };

    ghost view = { λ e. expr_of e.tree };
}

impl Expr {
    pub fn new(tree: ExprTree) -> Expr
        ensures { result ≡ expr_of tree }
    {
        Expr { tree }
    }

    pub fn tree(&self) -> &ExprTree
        ensures { expr_of result.now ≡ self.now }
    {
        &self.tree
    }

    /// The column at a place.
    pub fn column(place: usize) -> Expr
        ensures { result ≡ terms.Column place }
    {
        Expr::new(ExprTree::Column(place))
    }
}

/// An expression with a truth: contracts see it with its chains grouped to the left.
#[derive(Debug, Drop)]
pub struct Cond {
    tree: CondTree,
}

impl Model for Cond {
    ghost use Rattle.std.specs.Coded.{codes};
    ghost use Rattle.cq_model.specs.Expr as terms;
    ghost use Rattle.cq_model.specs.ExprCodes.{cond_code};
    ghost use Rattle.cq_model.specs.Trees.{cond_of};

    ghost Value = { terms.Cond };

    ghost coded = { cond_code (Prim.hlevel codes) };

    ghost view = { λ c. cond_of c.tree };
}

impl Cond {
    pub fn new(tree: CondTree) -> Cond
        ensures { result ≡ cond_of tree }
    {
        Cond { tree }
    }

    pub fn tree(&self) -> &CondTree
        ensures { cond_of result.now ≡ self.now }
    {
        &self.tree
    }
}
