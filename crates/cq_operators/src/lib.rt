//! Queries worked out on stored rows, at most 1,024 at a time: scan, filter, join, group, distinct, items, listing.
//!
//! An [`Exec`] is a plan on the rows of its sources: it makes an index of each source that is joined, sends the rows of the
//! first one through the indexes, collects what WHERE keeps, and hands out the list. To its callers it is the query, the
//! rows of its list that remain, and the fault that ended it, if any; each step gives rows from the front.
//! [`rows_in_order`] lists rows that are made.
#![tactic(auto)]

mod batches;
mod exec;
mod inputs;
mod listing;
mod opening;
mod progress;
mod selected;

pub use exec::Exec;
pub use listing::rows_in_order;
