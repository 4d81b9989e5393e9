//! Why a command line asks for no run.
//!
//! A [`LineFault`] is made once, of what clap's error tells or of want of memory, and carries the text that is shown with
//! it. [`LineFault::exit`] is the program's exit status then.
ghost use Rattle.std.specs.Prelude.{◌≡◌, IfOk};
ghost use Rattle.clap.specs.Words.{kind_of};
ghost use Rattle.cq_cli_options.specs.Fault.{IsFaultOf, fault_exit};
ghost use Rattle.cq_cli_options.specs.declared.fault.LineFault.TheVariants.{Memory};

use clap::error::ErrorKind;
use std::alloc::{AllocError, Global};
use thiserror::Error;

/// Why a command line asks for no run.
#[derive(Debug, Drop, Error)]
pub enum LineFault {
    /// Help or the version was asked for. This is its text, for standard output.
    #[error("{0}")]
    Help(String),
    #[error("out of memory")]
    Memory,
    /// The words are no command. This says why.
    #[error("{0}")]
    Refused(String),
}

impl LineFault {
    /// The exit status of the program.
    pub fn exit(&self) -> u8
        ensures { result ≡ fault_exit self.now }
    {
        match self {
            LineFault::Help(_) => 0,
            LineFault::Refused(_) => 2,
            LineFault::Memory => 3,
        }
    }

    /// What clap's error tells.
    pub(crate) fn told(alloc: Global, error: clap::Error) -> Result<LineFault, AllocError>
        ensures { IfOk result (IsFaultOf (kind_of error)) }
    {
        let text = error.to_string(alloc)?;
        Ok(match error.kind() {
            ErrorKind::OutOfMemory => LineFault::Memory,
            ErrorKind::DisplayHelp | ErrorKind::DisplayVersion => LineFault::Help(text),
            _ => LineFault::Refused(text),
        })
    }
}

impl From<AllocError> for LineFault {
    ghost from_gives = { λ _ fault. fault ≡ Memory };

    fn from(_e: AllocError) -> LineFault {
        LineFault::Memory
    }
}
