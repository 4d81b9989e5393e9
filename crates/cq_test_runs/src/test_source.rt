//! A source in memory that counts how often it is read, and fails at one of its reads.
//!
//! A [`TestSource`] gives one text under every name, so that a script's COPY statements read it in turn. When the run is
//! over it tells how often it was read, and how often it failed.
ghost use Rattle.std.specs.Prelude.{◌≡◌, Some};

use cq_cli::{SourceFault, Sources};
use std::alloc::Global;
use std::marker::Model;

/// Holds one text under every name.
#[derive(Drop)]
pub struct TestSource<'a> {
    text: &'a str,
    /// The read of this number, from 0, fails.
    fails_at: u64,
    reads: u64,
    failures: u64,
}

impl<'a> Model for TestSource<'a> {
    ghost use Rattle.std.specs.Prelude.{ℕ, List};

    ghost Value = { List ℕ × ℕ × ℕ };

    ghost view = { λ s. (s.text.now, s.failures, s.reads) };
}

impl TestSource<'_> {
    pub fn new<'a>(text: &'a str, fails_at: u64) -> TestSource<'a>
        ensures { result ≡ (text.now, 0, 0) }
    {
        TestSource {
            text,
            fails_at,
            reads: 0,
            failures: 0,
        }
    }

    /// How often it was read.
    pub fn reads(&self) -> u64
        ensures { result ≡ self.now.2 }
    {
        self.reads
    }

    /// How often a read failed.
    pub fn failures(&self) -> u64
        ensures { result ≡ self.now.1 }
    {
        self.failures
    }
}

impl Sources for TestSource<'_> {
    ghost files = { λ s. Some (λ _. s.0) };

    ghost failures = { λ s. s.1 };

    ghost reads = { λ s. s.2 };

    fn read(&mut self, alloc: Global, _name: &str) -> Result<Vec<u8>, SourceFault> {
        let number = self.reads;
        self.reads = number.wrapping_add(1);
        if number == self.fails_at {
            self.failures += 1;
            return Err(SourceFault::Failed);
        }
        Ok(self.text.as_bytes().to_vec(alloc)?)
    }
}
