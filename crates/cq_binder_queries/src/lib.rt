//! The binding of queries: the tables and views that FROM finds, and what stands behind FROM in a SELECT or a view.
//!
//! A [`Catalog`] knows tables and views by name, and FROM joins those that it names. [`bind_select`] makes the command
//! that a SELECT is, and [`bind_view`] the one of a view. The functions below them bind one clause each, in the order
//! of the walk: FROM, WHERE, GROUP BY, the items, HAVING, ORDER BY, LIMIT. Each gives what its clause means, or the
//! first fault in it; a writing statement finds its table's columns ([`table_columns`]) and binds WHERE
//! ([`bound_where`]) here too.
#![tactic(auto)]

mod catalog;
mod conditions;
mod from;
mod grouping;
mod items;
mod lists;
mod names;
mod order;
mod parts;
mod reading;
mod scopes;
mod select;
mod viewing;

pub use catalog::{Catalog, TableEntry, ViewEntry};
pub use conditions::bound_where;
pub use lists::{check_length, check_names, is_named};
pub use reading::bind_select;
pub use scopes::table_columns;
pub use viewing::bind_view;
