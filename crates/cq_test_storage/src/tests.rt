//! A module for each thing that is called.
mod columns;
mod segments;
mod tables;
