//! What whole numbers stand for.

/// Each is a number, or each is the number of a day.
#[derive(Clone, Copy)]
pub(crate) enum Kind {
    Number,
    Day,
}
