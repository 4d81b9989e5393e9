//! A module for each thing that is called.
mod aggregates;
mod command_lines;
mod conditions;
mod dates;
mod expressions;
mod faults;
mod folders;
mod groups;
mod narrow_queries;
mod orders;
mod pieces;
mod records;
mod results;
mod statements;
mod tokens;
mod totals;
