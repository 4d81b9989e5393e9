//! The columns of keys.
ghost use Rattle.std.specs.Prelude.{◌≡◌, IfOk};
ghost use Rattle.cq_hash_keys.specs.Keys.{values_of};

use cq_vectors::Vector;
use std::alloc::{AllocError, Global};

/// The columns, as a key table reads them.
pub fn key_columns<'v, 'a>(
    alloc: Global,
    columns: &'v [Vector<'a>],
) -> Result<Vec<&'v Vector<'a>>, AllocError>
    ensures { IfOk result (λ read. values_of read.items ≡ columns.now) }
{
    let mut read: Vec<&'v Vector<'a>> = Vec::new(alloc);
    read.reserve(columns.len())?;
    for column in columns {
        read.push_reserved(column);
    }
    Ok(read)
}
