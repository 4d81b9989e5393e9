//! Which columns a condition reads, rising, each once.
use cq_model::Cond;
use cq_model_terms::columns_of;
use std::alloc::{AllocError, Global};

/// The columns that the condition reads, where there is one. No answer depends on them: they say what is gathered at once.
pub fn columns_of_condition(
    alloc: Global,
    condition: &Option<Cond>,
) -> Result<Vec<usize>, AllocError> {
    match condition {
        Some(condition) => columns_of(alloc, condition.tree()),
        None => Ok(Vec::new(alloc)),
    }
}
