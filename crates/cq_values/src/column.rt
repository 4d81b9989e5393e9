//! Columns of tables and views.
use crate::text::Text;
use crate::ty::Ty;

/// A column of a table, or of a view.
#[derive(Debug, Drop)]
pub struct ColumnDef {
    pub name: Text,
    pub ty: Ty,
    pub not_null: bool,
}
