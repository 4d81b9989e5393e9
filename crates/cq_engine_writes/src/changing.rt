//! What a write changes in its table.
ghost use Rattle.std.specs.Prelude.{◌≡◌, IfOk, IfSome, is_some};
ghost use Rattle.cq_engine_writes.specs.Changing.{IsExchange};

use cq_engine_queue::Change;
use cq_values::{ColumnDef, Row};
use cq_writestore_rows::NewRows;
use std::alloc::{AllocError, Global};

/// The change of the table of a number and of these columns that the first rows leave and the others come to, where it is
/// asked for. Those that come are shared. Many rows stand in columns there, since they may stay for long.
pub(crate) fn change_of(
    alloc: Global,
    table: u64,
    columns: &[ColumnDef],
    gone: Vec<Row>,
    come: &NewRows,
    asked: bool,
) -> Result<Option<Change>, AllocError>
    ensures there { IfOk result (λ told. is_some told ≡ asked) }
    ensures is { IfOk result (λ told. IfSome told (IsExchange table gone.items come.now)) }
{
    if !asked {
        return Ok(None);
    }
    let gone = NewRows::of(gone).in_columns(alloc, columns)?;
    let come = come.share_in(alloc, columns)?;
    Ok(Some(Change::new(table, gone, come)))
}
