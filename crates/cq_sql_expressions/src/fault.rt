//! Why a piece is no statement.
//!
//! Every reader answers it. It is one byte and tells no place: the first fault of a piece decides. The limits are asked
//! before any reader begins, so a reader itself answers the first two alone.
ghost use Rattle.std.specs.Prelude.{◌≡◌};
ghost use Rattle.cq_sql_expressions.specs.declared.fault.SqlFault.TheVariants.{Memory};

use std::alloc::{AllocError, AllocFailed};
use thiserror::Error;

/// Why a piece is no statement.
#[derive(Clone, Copy, Debug, PartialEq, Eq, Error)]
pub enum SqlFault {
    #[error("out of memory")]
    Memory,
    #[error("syntax")]
    Syntax,
    #[error("limit exceeded")]
    LimitExceeded,
}

impl From<AllocError> for SqlFault {
    ghost from_gives = { λ _ e. e ≡ Memory };

    fn from(_e: AllocError) -> SqlFault {
        SqlFault::Memory
    }
}

impl<T: Drop> From<AllocFailed<T>> for SqlFault {
    ghost from_gives = { λ _ e. e ≡ Memory };

    fn from(_e: AllocFailed<T>) -> SqlFault {
        SqlFault::Memory
    }
}
