//! A module for each kind of query, and what they share.
mod groups;
mod lists;
mod opened;
mod plans;
mod queries;
