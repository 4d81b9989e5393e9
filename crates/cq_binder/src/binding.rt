//! Statements become commands.
ghost use Rattle.std.specs.Prelude.{◌≡◌, ◌<◌, ◌-◌, ◌^◌};
ghost use Rattle.cq_sql_language.specs.declared.statement.Statement.TheVariants.{CreateTable, CreateView, DropTable, DropView};
ghost use Rattle.cq_model_state.specs.State.{is_taken};
ghost use Rattle.cq_binder_queries.specs.Catalog.{names_view, state_of};
ghost use Rattle.cq_binder.specs.Binding.{unwritten_fault};
ghost use Rattle.cq_binder.specs.Columns.{WalksCreate};
ghost use Rattle.cq_binder.specs.Sourced.{Binds, BindsIn, ReadsOnce};

use crate::columns::{copy_columns, sort_columns};
use crate::copying::bind_copy;
use crate::moving::{bind_merge, bind_move, bind_refresh};
use crate::updating::bind_update;
use crate::writing::{bind_delete, bind_insert};
use cq_binder_queries::{Catalog, bind_select, bind_view, check_length, check_names};
use cq_binder_rules::{Bound, Fault, Sources};
use cq_sql_language::{Select, Statement};
use cq_values::{ColumnDef, Seq, Text};
use std::alloc::Global;

/// Why a statement is not bound: the first fault of its walk, or want of memory.
pub type BindFault = Fault;

/// The command that a statement is, with the names of the catalog resolved and the file of a COPY read, once. Whether the rows of
/// an INSERT or a COPY fit their table is not asked, nor which values an UPDATE gives.
pub fn bind<C: Catalog, S: Sources>(
    alloc: Global,
    statement: &Statement,
    catalog: &C,
    sources: &mut S,
) -> Result<Bound, BindFault>
    requires { S.failures sources.old < 2 ^ 64 - 1 }
    ensures bound { Binds S.Sources sources.old sources.new C.Catalog catalog.now statement.now result }
    ensures files { S.files sources.new ≡ S.files sources.old }
    ensures reads { ReadsOnce S.Sources sources.old sources.new C.Catalog catalog.now statement.now }
{
    match statement {
        Statement::CreateTable {
            name,
            columns,
            sort,
        } => bind_create(alloc, catalog, name, columns, sort),
        Statement::DropTable(name) => bind_drop(catalog, name),
        Statement::CreateView { name, query } => bind_create_view(alloc, catalog, name, query),
        Statement::DropView(name) => bind_drop_view(catalog, name),
        Statement::Insert { table, rows } => bind_insert(alloc, catalog, table, rows),
        Statement::Copy { table, file } => bind_copy(alloc, catalog, table, file, sources),
        Statement::Delete { table, condition } => bind_delete(alloc, catalog, table, condition),
        Statement::Update {
            table,
            assignments,
            condition,
        } => bind_update(alloc, catalog, table, assignments, condition),
        Statement::Select(select) => bind_select(alloc, catalog, select),
        Statement::Move { table, rows } => bind_move(catalog, table, *rows),
        Statement::Merge(table) => bind_merge(catalog, table),
        Statement::Refresh { view, changes } => bind_refresh(catalog, view, *changes),
    }
}

fn bind_create<C: Catalog>(
    alloc: Global,
    catalog: &C,
    name: &Text,
    columns: &Seq<ColumnDef>,
    sort: &Seq<Text>,
) -> Result<Bound, BindFault>
    ensures { BindsIn C.Catalog catalog.now (CreateTable name.now columns.now sort.now) result }
{
    let columns = columns.as_slice();
    let sort = check_create(alloc, catalog, name.as_str(), columns, sort.as_slice())?;
    Ok(Bound::CreateTable {
        name: name.copy(alloc)?,
        columns: copy_columns(alloc, columns)?,
        sort,
    })
}

/// The walk through a CREATE TABLE, and where the columns behind SORT BY stand.
fn check_create<C: Catalog>(
    alloc: Global,
    catalog: &C,
    name: &str,
    columns: &[ColumnDef],
    sort: &[Text],
) -> Result<Seq<usize>, BindFault>
    ensures { WalksCreate (state_of C.tables C.views catalog.now) name.now columns.now sort.now result }
{
    if is_taken(catalog, name) {
        return Err(Fault::NameTaken);
    }
    check_names(columns)?;
    check_length(columns.len())?;
    sort_columns(alloc, columns, sort)
}

fn bind_create_view<C: Catalog>(
    alloc: Global,
    catalog: &C,
    name: &Text,
    view: &Select,
) -> Result<Bound, BindFault>
    ensures { BindsIn C.Catalog catalog.now (CreateView name.now view.now) result }
{
    if is_taken(catalog, name.as_str()) {
        return Err(Fault::NameTaken);
    }
    bind_view(alloc, catalog, name, view)
}

fn bind_drop<C: Catalog>(catalog: &C, name: &Text) -> Result<Bound, BindFault>
    ensures { BindsIn C.Catalog catalog.now (DropTable name.now) result }
{
    let Some(table) = catalog.table(name.as_str()) else {
        return Err(Fault::UnknownTable);
    };
    if catalog.is_used(table.number) {
        return Err(Fault::TableInUse);
    }
    Ok(Bound::DropTable(table.number))
}

fn bind_drop_view<C: Catalog>(catalog: &C, name: &Text) -> Result<Bound, BindFault>
    ensures { BindsIn C.Catalog catalog.now (DropView name.now) result }
{
    match catalog.view_place(name.as_str()) {
        Some(place) => Ok(Bound::DropView(place)),
        None => Err(Fault::UnknownTable),
    }
}

/// Whether a table or a view has the name.
fn is_taken<C: Catalog>(catalog: &C, name: &str) -> bool
    ensures { result ≡ is_taken name.now (state_of C.tables C.views catalog.now) }
{
    catalog.table(name).is_some() || is_view(catalog, name)
}

/// Why a name that no table has cannot be written.
pub(crate) fn unwritten<C: Catalog>(catalog: &C, name: &str) -> BindFault
    ensures { result ≡ unwritten_fault name.now (C.views catalog.now) }
{
    if is_view(catalog, name) {
        Fault::ViewNotWritten
    } else {
        Fault::UnknownTable
    }
}

fn is_view<C: Catalog>(catalog: &C, name: &str) -> bool
    ensures { result ≡ names_view name.now (C.views catalog.now) }
{
    catalog.view_place(name).is_some()
}
