//! The kept state of a view, over the columns that its query reads.
//!
//! A [`KeptView`] keeps a view by the state of its query renamed to these columns, whose sides hold no others. The rows
//! of tables, and of their changes, are lent whole, and cut to these columns as they go in. To its callers it is what
//! the state of the query itself would be; who reads it says how many columns the tables' rows have.
#![tactic(auto)]

mod changes;
mod cutting;
mod filling;
mod kept_view;
mod laws;

pub use changes::TableChange;
pub use kept_view::KeptView;
pub use laws::{
    counts_are_within_work, counts_rise_where_changed, standing_depends_on_sources,
    work_depends_on_sources,
};
