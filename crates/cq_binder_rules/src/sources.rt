//! Where COPY finds its files.
//!
//! A [`Sources`] is asked for one file by its name, as often as is wanted, and counts how often it was read and how often
//! a read failed. One that tells what its files hold gives just that; any other gives some bytes, at each read anew. A read
//! costs what the file costs, and the bytes are the caller's.
ghost use Rattle.std.specs.Prelude.{◌≡◌, ◌<◌, ◌-◌, ◌^◌, List, Option, ℕ};
ghost use Rattle.cq_binder_rules.specs.Sources.{Reads, fault_of, one_read_more};
ghost use Rattle.cq_binder_rules.specs.declared.sources.SourceFault.TheVariants.{Memory};

use crate::fault::Fault;
use std::alloc::{AllocError, Global};
use thiserror::Error;

/// Why a source gave nothing.
#[derive(Clone, Copy, Debug, PartialEq, Eq, Error)]
pub enum SourceFault {
    #[error("the file could not be read")]
    Failed,
    #[error("out of memory")]
    Memory,
}

impl From<AllocError> for SourceFault {
    ghost from_gives = { λ _ fault. fault ≡ Memory };

    fn from(_e: AllocError) -> SourceFault {
        SourceFault::Memory
    }
}

impl From<SourceFault> for Fault {
    ghost from_gives = { λ given fault. fault ≡ fault_of given };

    fn from(given: SourceFault) -> Fault {
        match given {
            SourceFault::Failed => Fault::SourceFailed,
            SourceFault::Memory => Fault::Memory,
        }
    }
}

/// Files by their names.
pub trait Sources {
    /// The bytes that each name stands for, where the source tells them.
    ghost files: { Self → Option (List ℕ → List ℕ) };

    /// How often a read failed.
    ghost failures: { Self → ℕ };

    /// How often it was read. Behind 2^64 - 1 the count begins at 0 again.
    ghost reads: { Self → ℕ };

    /// The bytes that the name stands for.
    fn read(&mut self, alloc: Global, name: &str) -> Result<Vec<u8>, SourceFault>
        requires { failures self.old < 2 ^ 64 - 1 }
        ensures files { files self.new ≡ files self.old }
        ensures read { Reads (files self.old) name.now (failures self.old) (failures self.new) result }
        ensures counted { reads self.new ≡ one_read_more (reads self.old) };
}
