//! How many values a row has, and how many rows there are: more than can be counted are refused as want of memory.
//!
//! The call costs one sum. It refuses nothing else: what it refuses is 2^64 values or rows and more, for which no machine
//! has room. No other code may ask for room that cannot be had.
ghost use Rattle.std.specs.Prelude.{◌+◌, ◌<◌, ◌^◌, ◌≡◌, ◌≤◌, IfOk, OnErr, OnOk};

use std::alloc::{AllocError, Global};

/// How many values a row has with so many more behind it, or how many rows there are with so many more. What cannot be
/// counted is refused its room.
pub fn widened(alloc: Global, width: usize, more: usize) -> Result<usize, AllocError>
    ensures wider { IfOk result (λ wider. wider ≡ width + more) }
    ensures counted { IfOk result (λ wider. wider < 2 ^ 64) }
    ensures refused { OnErr result (2 ^ 64 ≤ width + more) }
{
    match width.checked_add(more) {
        Some(wider) => Ok(wider),
        None => {
            refused_room(alloc, width as u128 + more as u128)?;
            unreachable!()
        }
    }
}

/// Asks for room for so many bytes, which no machine has.
fn refused_room(alloc: Global, many: u128) -> Result<(), AllocError>
    requires { 2 ^ 64 ≤ many }
    ensures { OnOk result ⊥ }
{
    let mut room: Vec<u8> = Vec::new(alloc);
    room.push(0)?;
    room.reserve(usize::try_from(many).unwrap_or(usize::MAX))?;
    let _capacity = room.capacity();
    unreachable!()
}
