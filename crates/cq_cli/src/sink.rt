//! Where the output goes.
//!
//! A [`Sink`] is put bytes of which it may take a prefix, until all are taken, and flushed once they are. Whoever puts
//! asks again for what was not taken, and stops at the first failure: each failure is counted. A [`Writer`] makes a sink of
//! whatever writes; a put costs what its writer's write costs.
ghost use Rattle.std.specs.Prelude.{◌≡◌, ◌≤◌, ◌<◌, ◌+◌, ◌-◌, ◌^◌, ℕ, Bool, true, false, List, Option, IfOk, OnOk, length};
ghost use Rattle.std.specs.Io.KnownBytes.{Keeps, WriteAppends};
ghost use Rattle.cq_cli.specs.Writing.{failures_after, failures_of, flushes_after};

use std::io;
use std::io::Write;
use std::marker::Model;

/// A writer that counts its failures, and knows whether it was flushed last.
pub trait Sink {
    /// The bytes taken, where they are known.
    ghost contents: { Self → Option (List ℕ) };

    /// How often a put or a flush failed.
    ghost failures: { Self → ℕ };

    /// Nothing was put since it was flushed.
    ghost is_flushed: { Self → Bool };

    /// How often it was flushed, counted in 64 bits.
    ghost flushes: { Self → ℕ };

    /// Takes a prefix of the bytes. To take nothing of some bytes is a failure.
    fn put(&mut self, bytes: &[u8]) -> io::Result<usize>
        requires { failures self.old < 2 ^ 64 - 1 }
        ensures count { IfOk result (λ n. n ≤ length bytes.now) }
        ensures taken { WriteAppends (contents self.old) (contents self.new) result bytes.now }
        ensures failed { failures self.new
            ≡ failures self.old + failures_after result (length bytes.now) }
        ensures unflushed { is_flushed self.new ≡ false }
        ensures flushes { flushes self.new ≡ flushes self.old };

    fn flush(&mut self) -> io::Result<()>
        requires { failures self.old < 2 ^ 64 - 1 }
        ensures kept { Keeps (contents self.old) (contents self.new) }
        ensures flushed { OnOk result (is_flushed self.new ≡ true) }
        ensures failed { failures self.new ≡ failures self.old + failures_of result }
        ensures flushes { flushes self.new ≡ flushes_after result (flushes self.old) };
}

/// Any writer as a sink.
#[derive(Drop)]
pub struct Writer<W: Write> {
    writer: W,
    failures: u64,
    is_flushed: bool,
    flushes: u64,
}

impl<W: Write> Model for Writer<W> {
    ghost use Rattle.std.specs.Prelude.{ℕ, Bool, List, Option};

    ghost Value = { Option (List ℕ) × ℕ × Bool × ℕ };

    ghost view = { λ s. (W.contents s.writer, s.failures, s.is_flushed, s.flushes) };
}

impl<W: Write> Writer<W> {
    pub fn new(writer: W) -> Writer<W>
        ensures { result ≡ (W.contents writer, 0, false, 0) }
    {
        Writer {
            writer,
            failures: 0,
            is_flushed: false,
            flushes: 0,
        }
    }

    /// The writer as it is. Nothing is flushed.
    pub fn into_inner(self) -> W
        ensures { W.contents result ≡ self.0 }
    {
        let Writer { writer, .. } = self;
        writer
    }
}

impl<W: Write> Sink for Writer<W> {
    ghost contents = { λ s. s.0 };

    ghost failures = { λ s. s.1 };

    ghost is_flushed = { λ s. s.2 };

    ghost flushes = { λ s. s.3 };

    fn put(&mut self, bytes: &[u8]) -> io::Result<usize> {
        self.is_flushed = false;
        let taken = self.writer.write(bytes);
        let failed = match &taken {
            Ok(n) => *n == 0 && !bytes.is_empty(),
            Err(_) => true,
        };
        if failed {
            self.failures += 1;
        }
        taken
    }

    fn flush(&mut self) -> io::Result<()> {
        let flushed = self.writer.flush();
        match &flushed {
            Ok(()) => {
                self.is_flushed = true;
                self.flushes = self.flushes.wrapping_add(1);
            }
            Err(_) => self.failures += 1,
        }
        flushed
    }
}
