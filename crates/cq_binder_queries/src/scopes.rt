//! The columns of a table or of a view, as expressions read them.
ghost use Rattle.std.specs.Prelude.{◌≡◌, IfOk, OnOk, unwrap_or};
ghost use Rattle.cq_binder_queries.specs.Catalog.{shown_table, shown_view};
ghost use Rattle.cq_binder_queries.specs.From.{AreOf, PutsColumns};

use crate::catalog::{TableEntry, ViewEntry};
use cq_binder_expressions::ScopeColumn;
use cq_model::STORED_SIZE;
use cq_sql_language::FromSource;
use std::alloc::{AllocError, Global};

/// The columns of a table that is known by this name.
pub fn table_columns<'a>(
    alloc: Global,
    known: &'a str,
    table: &TableEntry<'a>,
) -> Result<Vec<ScopeColumn<'a>>, AllocError>
    ensures { IfOk result (λ columns. AreOf known.now table.now columns.items) }
{
    let mut columns = Vec::new(alloc);
    push_stored(&mut columns, known, table)?;
    Ok(columns)
}

/// Puts the columns of a table that is known by this name behind these.
pub(crate) fn push_stored<'a>(
    columns: &mut Vec<ScopeColumn<'a>>,
    known: &'a str,
    table: &TableEntry<'a>,
) -> Result<(), AllocError>
    ensures { OnOk result (PutsColumns known.now (shown_table table.now) columns.old columns.new) }
{
    for column in table.columns {
        columns.push(ScopeColumn::new(known, column, STORED_SIZE))?;
    }
    Ok(())
}

/// Puts the columns of a view that is known by this name behind these.
pub(crate) fn push_shown<'a>(
    columns: &mut Vec<ScopeColumn<'a>>,
    known: &'a str,
    view: &ViewEntry<'a>,
) -> Result<(), AllocError>
    ensures { OnOk result (PutsColumns known.now (shown_view view.now) columns.old columns.new) }
{
    for (column, size) in view.columns.iter().zip(view.sizes.as_slice()) {
        columns.push(ScopeColumn::new(known, column, *size))?;
    }
    Ok(())
}

/// The alias of a source, or else its own name.
pub(crate) fn known_as<'a>(from: &'a FromSource, name: &'a str) -> &'a str
    ensures { result.now ≡ unwrap_or from.now.alias name.now }
{
    match &from.alias {
        Some(alias) => alias.as_str(),
        None => name,
    }
}
