//! Parts of a day.

/// What EXTRACT takes from a day.
#[derive(Clone, Copy, Debug, PartialEq, Eq)]
pub enum DayPart {
    Year,
    Month,
    Day,
}
