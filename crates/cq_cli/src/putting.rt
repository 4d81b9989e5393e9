//! Bytes on their way into a sink.
ghost use Rattle.std.specs.Prelude.{◌≡◌, ◌<◌, ◌-◌, ◌^◌};
ghost use Rattle.cq_cli.specs.Sinks.{Writes};

use crate::endings::RunFault;
use crate::sink::Sink;

/// Puts the bytes again and again until all of them are taken.
pub(crate) fn put_all<K: Sink>(out: &mut K, bytes: &[u8]) -> Result<(), RunFault>
    requires { K.failures out.old < 2 ^ 64 - 1 }
    ensures written { Writes bytes.now K.Sink out.old out.new result }
    ensures flushes { K.flushes out.new ≡ K.flushes out.old }
{
    let mut rest = bytes;
    while !rest.is_empty() {
        match out.put(rest) {
            Ok(n) if n > 0 => {
                let (_, after) = rest.split_at(n);
                rest = after;
            }
            _ => return Err(RunFault::Output),
        }
    }
    Ok(())
}
