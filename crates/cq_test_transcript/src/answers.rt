//! A sink in memory that keeps answer from answer.
//!
//! An [`Answers`] takes all that a run puts, and marks where each answer ends, so that the transcript can show it behind its
//! statement.
ghost use Rattle.std.specs.Prelude.{◌≡◌, ◌++◌, [], Some, IfOk, IfErr, false};

use cq_cli::Sink;
use std::alloc::{AllocError, Global};
use std::io;
use std::io::{Error, ErrorKind};
use std::marker::Model;

/// What a run put, and where each answer of it ends: at a put that ends in a line feed.
#[derive(Drop)]
pub struct Answers {
    taken: Vec<u8>,
    ends: Vec<usize>,
    failures: u64,
    is_flushed: bool,
    flushes: u64,
}

impl Model for Answers {
    ghost use Rattle.std.specs.Prelude.{ℕ, Bool, List};

    ghost Value = { List ℕ × ℕ × Bool × ℕ };

    ghost view = { λ s. (s.taken.items, s.failures, s.is_flushed, s.flushes) };
}

impl Answers {
    pub fn new(alloc: Global) -> Answers
        ensures { result ≡ ([], 0, false, 0) }
    {
        Answers {
            taken: Vec::new(alloc),
            ends: Vec::new(alloc),
            failures: 0,
            is_flushed: false,
            flushes: 0,
        }
    }

    /// What was put so far.
    pub fn taken(&self) -> &[u8]
        ensures { result.now ≡ self.now.0 }
    {
        self.taken.as_slice()
    }

    /// Where each answer ends.
    pub fn ends(&self) -> &[usize] {
        self.ends.as_slice()
    }

    /// Keeps the bytes. Where memory is wanting nothing is kept.
    fn take(&mut self, bytes: &[u8]) -> Result<(), AllocError>
        ensures taken { IfOk result (λ done. self.new.0 ≡ self.old.0 ++ bytes.now) }
        ensures kept { IfErr result (λ why. self.new.0 ≡ self.old.0) }
        ensures counted { self.new.1 ≡ self.old.1 }
        ensures flushed { self.new.2 ≡ self.old.2 }
        ensures flushes { self.new.3 ≡ self.old.3 }
    {
        self.taken.reserve(bytes.len())?;
        if bytes.last() == Some(&b'\n') {
            self.ends
                .push(self.taken.len().saturating_add(bytes.len()))?;
        }
        self.taken.extend_from_slice(bytes)
    }
}

impl Sink for Answers {
    ghost contents = { λ s. Some s.0 };

    ghost failures = { λ s. s.1 };

    ghost is_flushed = { λ s. s.2 };

    ghost flushes = { λ s. s.3 };

    fn put(&mut self, bytes: &[u8]) -> io::Result<usize> {
        self.is_flushed = false;
        if self.take(bytes).is_err() {
            self.failures += 1;
            return Err(Error::from(ErrorKind::OutOfMemory));
        }
        Ok(bytes.len())
    }

    fn flush(&mut self) -> io::Result<()> {
        self.is_flushed = true;
        self.flushes = self.flushes.wrapping_add(1);
        Ok(())
    }
}
