//! Tables and views in memory: what each holds, how it is found, and how it changes.
//!
//! A [`NamedTable`] holds rows under a number and a name, a [`View`] what is kept of its query under a name. A view is made
//! ready for what changes in a table, which may fail; it then takes it in, which cannot. To its callers a [`NamedTable`] is
//! the bag of its rows, and a [`View`] what is kept for its query.
#![tactic(auto)]

mod named_table;
mod tables;
mod view;
mod views;

pub use named_table::NamedTable;
pub use tables::{drop_in, merge_in, move_in, place_numbered, place_of};
pub use view::View;
pub use views::{drop_view_at, is_used, view_place};
