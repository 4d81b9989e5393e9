//! A module for each thing that is called.
mod arithmetic;
mod columns;
mod joins;
mod kernels;
mod masks;
mod named;
mod parts;
mod patterns;
mod totals;
mod vectors;
