//! What holds of queries, of their changes, and of the states that views keep.
//!
//! Each function is a law: its body is empty, and its contract is the statement. The definitions are those of the model.
#![tactic(auto)]

mod laws;

pub use laws::{
    chain_law, condition_below_joins, extremes_are_counted, group_shows, groups_depend_on_bag,
    groups_keep_sizes, joined_rows_go_on, joined_rows_keep_sizes, kept_shows, last_shows,
    meaning_depends_on_bags, meaning_depends_on_sources, meaning_is_bag,
    own_conditions_are_implied, views_depend_on_bags,
};
