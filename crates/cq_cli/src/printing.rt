//! Answers on their way out.
ghost use Rattle.std.specs.Prelude.{◌≡◌, ◌<◌, ◌-◌, ◌^◌, ◌++◌, ◌∷◌, [], IfOk, codes};
ghost use Rattle.std.specs.Fmt.{decimal};
ghost use Rattle.cq_binder_rules.specs.FaultText.{number_text};
ghost use Rattle.cq_cli.specs.Sinks.{Writes};
ghost use Rattle.cq_cli.specs.Printing.{Shows, fault_line, printed_status, printed_text};

use crate::endings::{RunFault, Status};
use crate::putting::put_all;
use crate::sink::Sink;
use cq_binder_rules::Fault;
use cq_csvio::{TextFault, print_result};
use cq_model_step::Answer;
use cq_values::Seq;
use itoa::Buffer;
use std::alloc::Global;

/// What is printed for a statement.
#[derive(Drop)]
pub(crate) enum Printed {
    Done,
    Count(u64),
    Rows(Seq<u8>),
    Refused(Fault),
}

impl Printed {
    /// What this one statement makes of a script's status.
    pub(crate) fn status(&self) -> Status
        ensures { result ≡ printed_status self.now }
    {
        match self {
            Printed::Done | Printed::Count(_) | Printed::Rows(_) => Status::AllAccepted,
            Printed::Refused(_) => Status::SomeRefused,
        }
    }
}

/// Makes the text of a result before any of it is written.
pub(crate) fn shown(alloc: Global, outcome: Result<Answer, Fault>) -> Printed
    ensures { Shows outcome result }
{
    match outcome {
        Ok(Answer::Done) => Printed::Done,
        Ok(Answer::Count(n)) => Printed::Count(n),
        Ok(Answer::Rows { header, rows }) => {
            match print_result(alloc, header.as_slice(), &rows) {
                Ok(text) => Printed::Rows(text),
                Err(TextFault::Memory) => Printed::Refused(Fault::Memory),
            }
        }
        Err(fault) => Printed::Refused(fault),
    }
}

/// Writes what is printed. Takes no memory.
pub(crate) fn print<K: Sink>(out: &mut K, printed: &Printed) -> Result<Status, RunFault>
    requires { K.failures out.old < 2 ^ 64 - 1 }
    ensures written { Writes (printed_text printed.now) K.Sink out.old out.new result }
    ensures status { IfOk result (λ status. status ≡ printed_status printed.now) }
    ensures flushes { K.flushes out.new ≡ K.flushes out.old }
{
    put_printed(out, printed)?;
    Ok(printed.status())
}

fn put_printed<K: Sink>(out: &mut K, printed: &Printed) -> Result<(), RunFault>
    requires { K.failures out.old < 2 ^ 64 - 1 }
    ensures written { Writes (printed_text printed.now) K.Sink out.old out.new result }
    ensures flushes { K.flushes out.new ≡ K.flushes out.old }
{
    match printed {
        Printed::Done => put_all(out, b"ok\n"),
        Printed::Count(n) => put_count(out, *n),
        Printed::Rows(text) => put_all(out, text.as_slice()),
        Printed::Refused(fault) => put_fault(out, *fault),
    }
}

fn put_fault<K: Sink>(out: &mut K, fault: Fault) -> Result<(), RunFault>
    requires { K.failures out.old < 2 ^ 64 - 1 }
    ensures written { Writes (fault_line fault) K.Sink out.old out.new result }
    ensures flushes { K.flushes out.new ≡ K.flushes out.old }
{
    let mut buffer = Buffer::new();
    let number = number_text(&mut buffer, fault.record());
    put_all(out, b"error ")?;
    put_line(out, fault.words().as_bytes(), number.as_bytes())
}

/// The digits of the number, and none where there is no number.
fn number_text(buffer: &mut Buffer, number: Option<u64>) -> &str
    ensures { result.now ≡ number_text number }
{
    match number {
        Some(number) => buffer.format(number),
        None => "",
    }
}

fn put_line<K: Sink>(out: &mut K, first: &[u8], second: &[u8]) -> Result<(), RunFault>
    requires { K.failures out.old < 2 ^ 64 - 1 }
    ensures written { Writes ((first.now ++ second.now) ++ 10 ∷ []) K.Sink out.old out.new result }
    ensures flushes { K.flushes out.new ≡ K.flushes out.old }
{
    put_two(out, first, second)?;
    put_all(out, b"\n")
}

fn put_count<K: Sink>(out: &mut K, n: u64) -> Result<(), RunFault>
    requires { K.failures out.old < 2 ^ 64 - 1 }
    ensures written { Writes (codes "ok " ++ (decimal n ++ 10 ∷ [])) K.Sink out.old out.new result }
    ensures flushes { K.flushes out.new ≡ K.flushes out.old }
{
    let mut buffer = Buffer::new();
    let digits = buffer.format(n);
    put_three(out, b"ok ", digits.as_bytes(), b"\n")
}

fn put_three<K: Sink>(
    out: &mut K,
    first: &[u8],
    second: &[u8],
    third: &[u8],
) -> Result<(), RunFault>
    requires { K.failures out.old < 2 ^ 64 - 1 }
    ensures written { Writes (first.now ++ (second.now ++ third.now)) K.Sink out.old out.new result }
    ensures flushes { K.flushes out.new ≡ K.flushes out.old }
{
    put_all(out, first)?;
    put_two(out, second, third)
}

fn put_two<K: Sink>(out: &mut K, first: &[u8], second: &[u8]) -> Result<(), RunFault>
    requires { K.failures out.old < 2 ^ 64 - 1 }
    ensures written { Writes (first.now ++ second.now) K.Sink out.old out.new result }
    ensures flushes { K.flushes out.new ≡ K.flushes out.old }
{
    put_all(out, first)?;
    put_all(out, second)
}
