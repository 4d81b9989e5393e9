//! Why a result has no text.
ghost use Rattle.std.specs.Prelude.{◌≡◌};
ghost use Rattle.cq_csvio.specs.declared.fault.TextFault.TheVariants.{Memory};

use csv::{IntoInnerError, Writer};
use std::alloc::{AllocError, AllocFailed};
use thiserror::Error;

/// Why there is no text. It is written in memory, so that `csv`'s writer fails for want of it alone.
#[derive(Clone, Copy, Debug, PartialEq, Eq, Error)]
pub enum TextFault {
    #[error("out of memory")]
    Memory,
}

impl From<AllocError> for TextFault {
    ghost from_gives = { λ _ e. e ≡ Memory };

    fn from(_e: AllocError) -> TextFault {
        TextFault::Memory
    }
}

impl<T: Drop> From<AllocFailed<T>> for TextFault {
    ghost from_gives = { λ _ e. e ≡ Memory };

    fn from(_e: AllocFailed<T>) -> TextFault {
        TextFault::Memory
    }
}

impl From<csv::Error> for TextFault {
    ghost from_gives = { λ _ e. e ≡ Memory };

    fn from(_e: csv::Error) -> TextFault {
        TextFault::Memory
    }
}

impl From<IntoInnerError<Writer<Vec<u8>>>> for TextFault {
    ghost from_gives = { λ _ e. e ≡ Memory };

    fn from(_e: IntoInnerError<Writer<Vec<u8>>>) -> TextFault {
        TextFault::Memory
    }
}
