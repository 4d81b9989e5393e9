//! Sources without a file.
//!
//! [`NoSources`] is for scripts that are run without a folder: each COPY is refused for its source, and counted.
ghost use Rattle.std.specs.Prelude.{◌≡◌, [], Some};

use cq_engine::{SourceFault, Sources};
use std::alloc::Global;

/// Every read fails. The reads and their failures are counted.
#[derive(Debug, Drop)]
pub struct NoSources {
    failures: u64,
    reads: u64,
}

impl NoSources {
    pub fn new() -> NoSources
        ensures { result.failures ≡ 0 }
    {
        NoSources {
            failures: 0,
            reads: 0,
        }
    }
}

impl Sources for NoSources {
    ghost files = { λ _. Some (λ _. []) };

    ghost failures = { λ s. s.failures };

    ghost reads = { λ s. s.reads };

    fn read(&mut self, _alloc: Global, _name: &str) -> Result<Vec<u8>, SourceFault> {
        self.failures += 1;
        self.reads = self.reads.wrapping_add(1);
        Err(SourceFault::Failed)
    }
}
