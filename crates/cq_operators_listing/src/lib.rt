//! The listing of a query: its rows in the order of ORDER BY, cut by LIMIT, as they come in batches.
//!
//! [`Listing::add`] takes rows in any order, and [`Listing::rows`] gives the one list that stands for all of them. Where
//! LIMIT allows few rows, few are kept, and a row that can no longer be shown is not made. To its callers a [`Listing`]
//! is an order with the rows that it keeps, and it [can list](Listing) all that were added. [`in_order`] gives the one
//! list of rows that are made.
#![tactic(auto)]

mod arranging;
mod by_numbers;
mod comparing;
mod listing;
mod merging;
mod places;
mod ranked;
mod ranks;

pub use arranging::{in_order, is_listed};
pub use listing::Listing;
