//! MOVE, MERGE and REFRESH.
ghost use Rattle.cq_sql_language.specs.declared.statement.Statement.TheVariants.{Merge, Move, Refresh};
ghost use Rattle.cq_binder.specs.Sourced.{BindsIn};

use crate::binding::{BindFault, unwritten};
use cq_binder_queries::Catalog;
use cq_binder_rules::{Bound, Fault};
use cq_values::Text;

/// MOVE.
pub(crate) fn bind_move<C: Catalog>(
    catalog: &C,
    name: &Text,
    rows: u128,
) -> Result<Bound, BindFault>
    ensures { BindsIn C.Catalog catalog.now (Move name.now rows) result }
{
    let Some(table) = catalog.table(name.as_str()) else {
        return Err(unwritten(catalog, name.as_str()));
    };
    Ok(Bound::Move {
        table: table.number,
        rows,
    })
}

/// MERGE.
pub(crate) fn bind_merge<C: Catalog>(catalog: &C, name: &Text) -> Result<Bound, BindFault>
    ensures { BindsIn C.Catalog catalog.now (Merge name.now) result }
{
    let Some(table) = catalog.table(name.as_str()) else {
        return Err(unwritten(catalog, name.as_str()));
    };
    Ok(Bound::Merge(table.number))
}

/// REFRESH.
pub(crate) fn bind_refresh<C: Catalog>(
    catalog: &C,
    name: &Text,
    changes: u128,
) -> Result<Bound, BindFault>
    ensures { BindsIn C.Catalog catalog.now (Refresh name.now changes) result }
{
    let Some(view) = catalog.view_place(name.as_str()) else {
        return Err(Fault::UnknownTable);
    };
    Ok(Bound::Refresh { view, changes })
}
