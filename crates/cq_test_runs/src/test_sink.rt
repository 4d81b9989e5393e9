//! A sink in memory that fails on purpose.
//!
//! A [`TestSink`] keeps what a run puts, and does with its puts and its flush what its [`Plan`] says. When the run is over
//! it tells what it took, how often it failed and how often it was flushed.
ghost use Rattle.std.specs.Prelude.{◌≡◌, [], Some, false};

use cq_cli::Sink;
use std::alloc::Global;
use std::io;
use std::io::{Error, ErrorKind};
use std::marker::Model;

/// What a sink does with its puts and its flush.
#[derive(Clone, Copy, Debug)]
pub enum Plan {
    TakesAll,
    TakesOneByte,
    /// The put of this number, from 0, fails.
    FailsAt(u64),
    /// The put of this number, from 0, takes nothing.
    TakesNothingAt(u64),
    FlushFails,
}

/// Keeps what it takes.
#[derive(Drop)]
pub struct TestSink {
    taken: Vec<u8>,
    puts: u64,
    failures: u64,
    is_flushed: bool,
    flushes: u64,
    plan: Plan,
}

impl Model for TestSink {
    ghost use Rattle.std.specs.Prelude.{ℕ, Bool, List};

    ghost Value = { List ℕ × ℕ × Bool × ℕ };

    ghost view = { λ s. (s.taken.items, s.failures, s.is_flushed, s.flushes) };
}

impl TestSink {
    pub fn new(alloc: Global, plan: Plan) -> TestSink
        ensures { result ≡ ([], 0, false, 0) }
    {
        TestSink {
            taken: Vec::new(alloc),
            puts: 0,
            failures: 0,
            is_flushed: false,
            flushes: 0,
            plan,
        }
    }

    /// What was taken so far.
    pub fn taken(&self) -> &[u8]
        ensures { result.now ≡ self.now.0 }
    {
        self.taken.as_slice()
    }

    /// How often a put or the flush failed.
    pub fn failures(&self) -> u64
        ensures { result ≡ self.now.1 }
    {
        self.failures
    }

    /// Whether nothing was put since the last flush.
    pub fn is_flushed(&self) -> bool
        ensures { result ≡ self.now.2 }
    {
        self.is_flushed
    }

    /// How often it was flushed.
    pub fn flushes(&self) -> u64
        ensures { result ≡ self.now.3 }
    {
        self.flushes
    }
}

fn broken() -> Error {
    Error::from(ErrorKind::BrokenPipe)
}

impl Sink for TestSink {
    ghost contents = { λ s. Some s.0 };

    ghost failures = { λ s. s.1 };

    ghost is_flushed = { λ s. s.2 };

    ghost flushes = { λ s. s.3 };

    fn put(&mut self, bytes: &[u8]) -> io::Result<usize> {
        self.is_flushed = false;
        let at = self.puts;
        self.puts = at.wrapping_add(1);
        let offered = match self.plan {
            Plan::FailsAt(put) if put == at => {
                self.failures += 1;
                return Err(broken());
            }
            Plan::TakesNothingAt(put) if put == at => &bytes[..0],
            Plan::TakesOneByte => &bytes[..bytes.len().min(1)],
            _ => bytes,
        };
        if self.taken.extend_from_slice(offered).is_err() {
            self.failures += 1;
            return Err(Error::from(ErrorKind::OutOfMemory));
        }
        if offered.is_empty() && !bytes.is_empty() {
            self.failures += 1;
        }
        Ok(offered.len())
    }

    fn flush(&mut self) -> io::Result<()> {
        if matches!(self.plan, Plan::FlushFails) {
            self.failures += 1;
            return Err(broken());
        }
        self.is_flushed = true;
        self.flushes = self.flushes.wrapping_add(1);
        Ok(())
    }
}
