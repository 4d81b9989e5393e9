//! The columns of a table that is created, and where those behind SORT BY stand.
ghost use Rattle.std.specs.Prelude.{◌≡◌, IfOk};
ghost use Rattle.cq_binder.specs.Columns.{FindsSort};

use cq_binder_expressions::column_place;
use cq_binder_queries::is_named;
use cq_binder_rules::Fault;
use cq_values::{ColumnDef, Seq, Text};
use std::alloc::{AllocError, Global};

/// Where the columns behind SORT BY stand, each of them once.
pub(crate) fn sort_columns(
    alloc: Global,
    columns: &[ColumnDef],
    names: &[Text],
) -> Result<Seq<usize>, Fault>
    ensures { FindsSort columns.now names.now result }
{
    let mut places = Seq::new(alloc);
    for (i, name) in names.iter().enumerate() {
        let Some(place) = column_place(columns, name.as_str()) else {
            return Err(Fault::UnknownColumn);
        };
        if is_named(&names[..i], name.as_str()) {
            return Err(Fault::NameTaken);
        }
        places.push(place)?;
    }
    Ok(places)
}

/// The columns once more.
pub(crate) fn copy_columns(
    alloc: Global,
    columns: &[ColumnDef],
) -> Result<Seq<ColumnDef>, AllocError>
    ensures { IfOk result (λ copies. copies ≡ columns.now) }
{
    let mut copies = Seq::new(alloc);
    for column in columns {
        copies.push(ColumnDef {
            name: column.name.copy(alloc)?,
            ty: column.ty,
            not_null: column.not_null,
        })?;
    }
    Ok(copies)
}
