//! The kept state of a view over tables that are joined.
//!
//! A [`ViewState`] has the sides of its query's joins, and behind them the groups of the joined rows that WHERE keeps,
//! or their images with their weights. A condition of WHERE on one source alone is asked below the joins, so that no
//! side holds a row that fails it. Changes of the tables go in by two steps: [`ViewState::prepare`] works out what
//! they change, from the stored sides and the changes alone, and makes all growth; [`ViewState::commit`] puts it in,
//! takes no memory and cannot fail. Then the view stands for the changed tables, and [`ViewState::rows`] shows its
//! query's bag, in rows whose numbers are within [`column_sizes`]. A view starts as a [`ViewBuild`] without rows, which
//! takes those of its tables in; [`ViewBuild::finish`] gives the view, and counts no work of them.
#![tactic(auto)]

mod build;
mod columns;
mod grouping;
mod imaging;
mod joins;
mod last;
mod laws;
mod query;
mod showing;
mod state;
mod whole_rows;

pub use build::ViewBuild;
pub use columns::column_sizes;
pub use laws::{counts_are_within_work, counts_rise_where_changed, standing_depends_on_sources};
pub use query::reads;
pub use state::{Pending, ViewState};
pub use whole_rows::show_whole_rows;
