//! The types of columns.

/// What a column can hold beside NULL.
#[derive(Clone, Copy, Debug, PartialEq, Eq)]
pub enum Ty {
    /// Whole numbers of 64 bits with a sign.
    Integer,
    /// Texts of at most 4,096 bytes.
    Text,
    /// Days from 0001-01-01 to 9999-12-31.
    Date,
}
