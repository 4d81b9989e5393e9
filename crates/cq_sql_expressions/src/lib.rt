//! Readers of tokens: what stands at their front, lists and clauses of any kind, and expressions.
//!
//! A reader takes what it reads from the front of tokens, and answers it with the tokens behind it. What reads one kind
//! of thing is a [`Readable`], and [`list_of`], [`list_behind`], [`more_of`] and [`tail_of`] read lists and clauses of
//! it, each in the words of the grammar. [`SqlExpressions`] reads as much as makes an expression; [`expression_of`]
//! answers the tree of a list of tokens exactly where all of them are an expression, and a list of tokens is at most
//! one ([`one_expression`]).
#![tactic(auto)]

mod atoms;
mod expressions;
mod fault;
mod laws;
mod leads;
mod nodes;
mod predicates;
mod read;
mod separators;
mod whole;

pub use fault::SqlFault;
pub use laws::one_expression;
pub use leads::Lead;
pub use read::{
    Readable, after_keyword, after_symbol, expect_keyword, expect_symbol, list_behind, list_of,
    more_of, tail_of,
};
pub use whole::{SqlExpressions, expression_of};
