//! What a grouped view keeps, changed row by row and not worked out anew.
//!
//! [`Groups`] has a group for each key: how many rows it has, and for each aggregate a count, an exact total, or the
//! values with their counts in order. A [`GroupChange`] is what changed rows add, each to the group at a place. First
//! [`OpenGroups::ready`] makes all growth, row by row, then [`OpenGroups::take`] puts the change in and cannot fail; then
//! the groups are those of the changed rows. [`Groups::open`] lends the groups as [`OpenGroups`], which no call reads.
#![tactic(auto)]

mod change;
mod extremes;
mod group;
mod grouping;
mod groups;
mod kept;
mod laws;
mod open_groups;

pub use change::GroupChange;
pub use grouping::Grouping;
pub use groups::Groups;
pub use laws::{more_is_added, ranges_show};
pub use open_groups::OpenGroups;
