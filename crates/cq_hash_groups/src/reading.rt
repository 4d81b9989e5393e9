//! Columns that groups read more than once of each row: they are gathered once.
use cq_model::{Aggregate, ExprTree};
use cq_model_terms::add_columns;
use cq_values::Seq;
use std::alloc::{AllocError, Global};

/// Columns, each once: those that were met, and those of them that were met again.
#[derive(Drop)]
struct Met {
    once: Vec<usize>,
    again: Vec<usize>,
}

impl Met {
    fn meet(&mut self, column: usize) -> Result<(), AllocError> {
        if !is_among(&self.once, column) {
            self.once.push(column)?;
        } else if !is_among(&self.again, column) {
            self.again.push(column)?;
        }
        Ok(())
    }

    /// Meets what an expression reads.
    fn meet_in(&mut self, alloc: Global, tree: &ExprTree) -> Result<(), AllocError> {
        let mut columns = Vec::new(alloc);
        add_columns(tree, &mut columns)?;
        for column in &columns {
            self.meet(*column)?;
        }
        Ok(())
    }
}

/// The columns that the keys and the aggregates name more than once. No answer depends on them.
pub(crate) fn read_again(
    alloc: Global,
    keys: &Option<Seq<usize>>,
    aggregates: &[Aggregate],
) -> Result<Vec<usize>, AllocError> {
    let mut met = Met {
        once: Vec::new(alloc),
        again: Vec::new(alloc),
    };
    if let Some(columns) = keys {
        for column in columns.as_slice() {
            met.meet(*column)?;
        }
    }
    for aggregate in aggregates {
        match aggregate {
            Aggregate::CountAll => {}
            Aggregate::Count(expr)
            | Aggregate::CountDistinct(expr)
            | Aggregate::Sum(expr)
            | Aggregate::Min(expr)
            | Aggregate::Max(expr) => met.meet_in(alloc, expr.tree())?,
        }
    }
    Ok(met.again)
}

fn is_among(columns: &[usize], column: usize) -> bool {
    columns.iter().any(|other| *other == column)
}
