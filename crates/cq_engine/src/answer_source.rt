//! Where answers come from.

/// Where the answer to a query comes from.
#[derive(Clone, Copy, Debug, PartialEq, Eq)]
pub enum AnswerSource<'a> {
    /// What the query's FROM names.
    Tables,
    /// The rows of the view of this name, which has the core of the query.
    View(&'a str),
}
