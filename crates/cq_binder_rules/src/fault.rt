//! Why a statement is refused.
//!
//! The binder answers the first [`Fault`] of the walk; those behind it, of rows and totals, come from the engine. A
//! fault is a number and a text that a script prints, and holds no memory, so that want of it can be told too.
ghost use Rattle.std.specs.Prelude.{◌≡◌};
ghost use Rattle.cq_binder_rules.specs.FaultText.{fault_words, record_of};
ghost use Rattle.cq_binder_rules.specs.declared.fault.Fault.TheVariants.{Memory};

use std::alloc::{AllocError, AllocFailed};
use thiserror::Error;

/// A refusal. A refused statement changes no table.
#[derive(Clone, Copy, Debug, PartialEq, Eq, Error)]
pub enum Fault {
    #[error("1 out of memory")]
    Memory,
    #[error("3 source failed")]
    SourceFailed,
    #[error("9 script not UTF-8")]
    NotUtf8,
    #[error("10 syntax")]
    Syntax,
    #[error("11 unknown table or view")]
    UnknownTable,
    #[error("12 unknown column")]
    UnknownColumn,
    #[error("13 ambiguous column")]
    AmbiguousColumn,
    #[error("14 name taken")]
    NameTaken,
    #[error("15 type mismatch")]
    TypeMismatch,
    #[error("16 aggregate misplaced or column not grouped")]
    AggregateMisplaced,
    #[error("17 expression too wide")]
    TooWide,
    #[error("18 over 4 base tables")]
    TooManyTables,
    #[error("19 number outside 64 bits")]
    NumberOutside,
    #[error("20 NULL in a NOT NULL column")]
    NullNotAllowed,
    #[error("21 table full")]
    TableFull,
    #[error("22 table used by a view")]
    TableInUse,
    #[error("23 views are not written")]
    ViewNotWritten,
    #[error("24 text too long")]
    TextTooLong,
    #[error("25 bad date")]
    BadDate,
    /// The number of the record, from 1.
    #[error("26 bad CSV record {0}")]
    BadRecord(u64),
    #[error("27 sum beyond 128 bits")]
    SumOutOfRange,
    #[error("28 clause not allowed in a view")]
    ClauseInView,
    #[error("29 limit exceeded")]
    LimitExceeded,
}

impl Fault {
    /// The number of the refusal and its text, as they stand behind `error` and before the number of a record.
    pub fn words(self) -> &'static str
        ensures { result.now ≡ fault_words self }
    {
        match self {
            Fault::Memory => "1 out of memory",
            Fault::SourceFailed => "3 source failed",
            Fault::NotUtf8 => "9 script not UTF-8",
            Fault::Syntax => "10 syntax",
            Fault::UnknownTable => "11 unknown table or view",
            Fault::UnknownColumn => "12 unknown column",
            Fault::AmbiguousColumn => "13 ambiguous column",
            Fault::NameTaken => "14 name taken",
            Fault::TypeMismatch => "15 type mismatch",
            Fault::AggregateMisplaced => "16 aggregate misplaced or column not grouped",
            Fault::TooWide => "17 expression too wide",
            Fault::TooManyTables => "18 over 4 base tables",
            Fault::NumberOutside => "19 number outside 64 bits",
            Fault::NullNotAllowed => "20 NULL in a NOT NULL column",
            Fault::TableFull => "21 table full",
            Fault::TableInUse => "22 table used by a view",
            Fault::ViewNotWritten => "23 views are not written",
            Fault::TextTooLong => "24 text too long",
            Fault::BadDate => "25 bad date",
            Fault::BadRecord(_) => "26 bad CSV record ",
            Fault::SumOutOfRange => "27 sum beyond 128 bits",
            Fault::ClauseInView => "28 clause not allowed in a view",
            Fault::LimitExceeded => "29 limit exceeded",
        }
    }

    /// The record that the refusal names, counted from 1.
    pub fn record(self) -> Option<u64>
        ensures { result ≡ record_of self }
    {
        match self {
            Fault::BadRecord(record) => Some(record),
            _ => None,
        }
    }
}

impl From<AllocError> for Fault {
    ghost from_gives = { λ _ e. e ≡ Memory };

    fn from(_e: AllocError) -> Fault {
        Fault::Memory
    }
}

impl<T: Drop> From<AllocFailed<T>> for Fault {
    ghost from_gives = { λ _ e. e ≡ Memory };

    fn from(_e: AllocFailed<T>) -> Fault {
        Fault::Memory
    }
}
