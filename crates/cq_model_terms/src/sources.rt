//! The sources that FROM names.
ghost use Rattle.std.specs.Prelude.{◌≡◌, IfOk};
ghost use Rattle.cq_model.specs.Views.{sources_of};

use cq_model::{Query, Source};
use std::alloc::{AllocError, Global};

/// The sources that FROM names, in its order.
pub fn sources_of(alloc: Global, query: &Query) -> Result<Vec<Source>, AllocError>
    ensures { IfOk result (λ sources. sources.items ≡ sources_of query.now) }
{
    let mut sources = Vec::new(alloc);
    sources.push(query.first)?;
    for join in query.joins.as_slice() {
        sources.push(join.source)?;
    }
    Ok(sources)
}
