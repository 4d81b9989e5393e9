//! The three answers of a condition.
ghost use Rattle.std.specs.Prelude.{◌≡◌};
ghost use Rattle.cq_values.specs.Truth.{and_truth, is_true, not_truth, or_truth};

/// What a condition is in a row: a comparison with NULL is Unknown.
#[derive(Clone, Copy, Debug, PartialEq, Eq)]
pub enum Truth {
    True,
    False,
    Unknown,
}

impl Truth {
    pub fn not(self) -> Truth
        ensures { result ≡ not_truth self }
    {
        match self {
            Truth::True => Truth::False,
            Truth::False => Truth::True,
            Truth::Unknown => Truth::Unknown,
        }
    }

    pub fn and(self, other: Truth) -> Truth
        ensures { result ≡ and_truth self other }
    {
        match (self, other) {
            (Truth::False, _) | (_, Truth::False) => Truth::False,
            (Truth::True, Truth::True) => Truth::True,
            _ => Truth::Unknown,
        }
    }

    pub fn or(self, other: Truth) -> Truth
        ensures { result ≡ or_truth self other }
    {
        match (self, other) {
            (Truth::True, _) | (_, Truth::True) => Truth::True,
            (Truth::False, Truth::False) => Truth::False,
            _ => Truth::Unknown,
        }
    }

    /// What WHERE, ON and HAVING keep: neither False nor Unknown.
    pub fn is_true(self) -> bool
        ensures { result ≡ is_true self }
    {
        matches!(self, Truth::True)
    }
}
