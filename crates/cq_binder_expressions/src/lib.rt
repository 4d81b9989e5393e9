//! Expressions: what they give or the fault that they have, and what is written with places for names.
//!
//! A written expression is walked through by [`typing_of`]; what has no fault is bound by [`bind_condition`],
//! [`bind_having`], [`bind_item`], [`bind_kept`] or [`bind_of`], and nothing in it is too wide in a row whose columns and
//! aggregates keep their sizes ([`typed_is_narrow`], [`arguments_are_narrow`]); over rows its value is of its type where those
//! of the columns are of theirs ([`typed_is_of_its_kind`]).
#![tactic(auto)]

mod aggregates;
mod bind;
mod laws;
mod placing;
mod scope;
mod trees;
mod typings;
mod walk;

pub use aggregates::has_aggregate;
pub use bind::{bind_condition, bind_having, bind_item, bind_kept, bind_of, type_of};
pub use laws::{arguments_are_narrow, typed_is_narrow, typed_is_of_its_kind};
pub use scope::{Scope, ScopeColumn, column_place, is_known, named_place, resolved};
pub use walk::typing_of;
