//! Why a table refuses a write.
//!
//! The faults of the statements, as far as a table can tell them. Whoever carries a statement out turns them by `?`
//! into [`Fault`].
ghost use Rattle.std.specs.Prelude.{◌≡◌};
ghost use Rattle.cq_table.specs.Checks.{fault_of};
ghost use Rattle.cq_table.specs.declared.fault.TableFault.TheVariants.{Memory};

use cq_binder_rules::Fault;
use std::alloc::{AllocError, AllocFailed};
use thiserror::Error;

/// A refusal. The table is as it was before.
#[derive(Clone, Copy, Debug, PartialEq, Eq, Error)]
pub enum TableFault {
    #[error("out of memory")]
    Memory,
    /// The rows would be more than the table may have.
    #[error("table full")]
    Full,
    #[error("number outside 64 bits")]
    NumberOutside,
    #[error("NULL in a NOT NULL column")]
    NullNotAllowed,
}

impl From<AllocError> for TableFault {
    ghost from_gives = { λ _ e. e ≡ Memory };

    fn from(_e: AllocError) -> TableFault {
        TableFault::Memory
    }
}

impl<T: Drop> From<AllocFailed<T>> for TableFault {
    ghost from_gives = { λ _ e. e ≡ Memory };

    fn from(_e: AllocFailed<T>) -> TableFault {
        TableFault::Memory
    }
}

impl From<TableFault> for Fault {
    ghost from_gives = { λ t e. e ≡ fault_of t };

    fn from(fault: TableFault) -> Fault {
        match fault {
            TableFault::Memory => Fault::Memory,
            TableFault::Full => Fault::TableFull,
            TableFault::NumberOutside => Fault::NumberOutside,
            TableFault::NullNotAllowed => Fault::NullNotAllowed,
        }
    }
}
