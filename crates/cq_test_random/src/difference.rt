//! What sets an engine and the plain evaluator apart.
use cq_binder_rules::Fault;
use cq_sql::SqlFault;
use cq_test_plain::PlainFault;
use std::alloc::{AllocError, AllocFailed};
use thiserror::Error;

/// Why a statement was not carried out alike.
#[derive(Debug, Drop, Error)]
pub(crate) enum Difference {
    #[error("out of memory")]
    Memory,
    #[error("no sentence ({0})")]
    NoSentence(SqlFault),
    #[error("refused ({0})")]
    Refused(Fault),
    #[error("not worked out ({0})")]
    NotWorkedOut(PlainFault),
    #[error("answered otherwise")]
    Answer,
    #[error("answered from another source")]
    Source,
    #[error("other writes are counted")]
    Writes,
    #[error("view {0} stands at another epoch")]
    Epoch(u64),
    #[error("view {0} is not its query at its epoch")]
    View(u64),
}

impl From<AllocError> for Difference {
    fn from(_e: AllocError) -> Difference {
        Difference::Memory
    }
}

impl<T: Drop> From<AllocFailed<T>> for Difference {
    fn from(_e: AllocFailed<T>) -> Difference {
        Difference::Memory
    }
}

impl From<SqlFault> for Difference {
    fn from(fault: SqlFault) -> Difference {
        Difference::NoSentence(fault)
    }
}

impl From<Fault> for Difference {
    fn from(fault: Fault) -> Difference {
        Difference::Refused(fault)
    }
}

impl From<PlainFault> for Difference {
    fn from(fault: PlainFault) -> Difference {
        Difference::NotWorkedOut(fault)
    }
}
