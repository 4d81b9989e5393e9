//! Why what a query means cannot be shown.
ghost use Rattle.std.specs.Prelude.{◌≡◌};
ghost use Rattle.cq_model.specs.declared.fault.ShowFault.TheVariants.{Memory};

use std::alloc::{AllocError, AllocFailed};
use thiserror::Error;

/// Why groups, or the rows of a view, are not shown.
#[derive(Clone, Copy, Debug, PartialEq, Eq, Error)]
pub enum ShowFault {
    #[error("out of memory")]
    Memory,
    /// The total of a SUM does not fit 127 bits and a sign.
    #[error("sum beyond 128 bits")]
    SumOutOfRange,
}

impl From<AllocError> for ShowFault {
    ghost from_gives = { λ _ e. e ≡ Memory };

    fn from(_e: AllocError) -> ShowFault {
        ShowFault::Memory
    }
}

impl<T: Drop> From<AllocFailed<T>> for ShowFault {
    ghost from_gives = { λ _ e. e ≡ Memory };

    fn from(_e: AllocFailed<T>) -> ShowFault {
        ShowFault::Memory
    }
}
