//! What kind of thing an expression is, and how large it can be.
//!
//! The walk through an expression makes a [`Typing`] of each node, of those of its operands, and asks it whether the
//! operator above may take it. It is copied, and its size is a bound that no row's value exceeds.
use cq_values::Ty;

/// What an expression gives.
#[derive(Clone, Copy, Debug, PartialEq, Eq)]
pub enum Kind {
    /// True, False or Unknown.
    Condition,
    /// A value of this type, or NULL.
    Value(Ty),
    /// NULL, which is a value of any type.
    Null,
}

/// What an expression gives, and the size that it never exceeds where it is a whole number.
#[derive(Clone, Copy, Debug, PartialEq, Eq)]
pub struct Typing {
    pub kind: Kind,
    pub size: u128,
}
