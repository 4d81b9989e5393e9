//! The limits that a caller sets.
//!
//! [`Limits`] is given to an engine once, when it is made: whoever holds one knows that it is in range.
ghost use Rattle.std.specs.Prelude.{◌≡◌, ◌≤◌, ◌↔◌, IfSome, IsSome};
ghost use Rattle.cq_model_state.specs.Fitting.{rows_limit};

/// How many rows a table may have.
#[derive(Clone, Copy, Debug)]
pub struct Limits {
    pub max_rows: u64,
    pub ghost in_range: { (1 ≤ max_rows) × (max_rows ≤ rows_limit) },
}

impl Limits {
    /// The most that can be allowed.
    pub const MAX_ROWS: u64 = 1_073_741_824;

    /// None where the limit is not from 1 to [`Limits::MAX_ROWS`].
    pub fn new(max_rows: u64) -> Option<Limits>
        ensures in_range { IsSome result ↔ ((1 ≤ max_rows) × (max_rows ≤ rows_limit)) }
        ensures value { IfSome result (λ l. l.max_rows ≡ max_rows) }
    {
        if max_rows < 1 || Limits::MAX_ROWS < max_rows {
            return None;
        }
        Some(Limits { max_rows })
    }
}
