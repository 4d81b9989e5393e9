//! The tables and views that statements find under their names.
//!
//! The engine shows its tables and views as a [`Catalog`], and the binder asks it by name, as often as a name is
//! written. An entry is lent and takes no memory. What a look-up costs is the engine's affair; nothing is changed by
//! one.
ghost use Rattle.std.specs.Prelude.{◌≡◌, List, IfOk};
ghost use Rattle.cq_binder_rules.specs.Refusal.{is_used};
ghost use Rattle.cq_model_state.specs.State.{TableOf, ViewOf, view_place};
ghost use Rattle.cq_binder_queries.specs.Catalog.{IsTableNamed, IsViewNamed};

use cq_values::ColumnDef;
use std::alloc::{AllocError, Global};

/// A table as statements see it.
#[derive(Drop)]
pub struct TableEntry<'a> {
    pub number: u64,
    pub name: &'a str,
    pub columns: &'a [ColumnDef],
}

/// A view as statements see it.
#[derive(Drop)]
pub struct ViewEntry<'a> {
    /// Where it stands among the views.
    pub place: u64,
    pub name: &'a str,
    pub columns: &'a [ColumnDef],
    /// How large the numbers in each column can be.
    pub sizes: Vec<u128>,
    /// How many base tables its query reads.
    pub bases: usize,
}

/// Tables and views under their names.
pub trait Catalog {
    /// The tables in the order of their creation.
    ghost tables: { Self → List TableOf };

    /// The views in the order of their creation.
    ghost views: { Self → List ViewOf };

    /// The table of a name, if there is one.
    fn table(&self, name: &str) -> Option<TableEntry<'_>>
        ensures { IsTableNamed name.now (tables self.now) result };

    /// The view of a name, if there is one.
    fn view(&self, alloc: Global, name: &str) -> Result<Option<ViewEntry<'_>>, AllocError>
        ensures { IfOk result (IsViewNamed name.now (views self.now)) };

    /// Where the view of a name stands among the views.
    fn view_place(&self, name: &str) -> Option<usize>
        ensures { result ≡ view_place name.now (views self.now) };

    /// Whether a view stands on the table of a number.
    fn is_used(&self, table: u64) -> bool
        ensures { result ≡ is_used table (views self.now) };
}
