//! Why a query has no answer.
ghost use Rattle.std.specs.Prelude.{◌≡◌};
ghost use Rattle.cq_test_plain.specs.declared.fault.PlainFault.TheVariants.{Memory};

use std::alloc::{AllocError, AllocFailed};
use thiserror::Error;

/// Why there is no answer.
#[derive(Clone, Copy, Debug, PartialEq, Eq, Error)]
pub enum PlainFault {
    #[error("out of memory")]
    Memory,
    /// A number that is written or worked out on the way to an expression's value does not fit 127 bits and a sign.
    #[error("value too wide")]
    TooWide,
    /// The total of a SUM cannot be shown.
    #[error("sum out of range")]
    SumOutOfRange,
}

impl From<AllocError> for PlainFault {
    ghost from_gives = { λ _ e. e ≡ Memory };

    fn from(_e: AllocError) -> PlainFault {
        PlainFault::Memory
    }
}

impl<T: Drop> From<AllocFailed<T>> for PlainFault {
    ghost from_gives = { λ _ e. e ≡ Memory };

    fn from(_e: AllocFailed<T>) -> PlainFault {
        PlainFault::Memory
    }
}
