//! The least and the greatest of each 1,024 offsets.
ghost use Rattle.std.specs.Bool.{OnFalse};
ghost use Rattle.std.specs.Prelude.{◌*◌, ◌+◌, ◌<◌, ◌≡◌, ◌≤◌, IfOk, false, length, slice_index_or};
ghost use Rattle.cq_encodings_numbers.specs.Ends.{AreClear, AreEnds, HaveEnds, with_offset};

use cq_encodings_plain::{Nulls, PackedNumbers};
use std::alloc::{AllocError, Global};

/// Whether NULL stands among some offsets, and the least and the greatest of those where it does not, if there is one.
#[derive(Clone, Copy)]
pub(crate) struct PartEnds {
    pub(crate) has_null: bool,
    pub(crate) ends: Option<(u64, u64)>,
}

/// The ends of each part of 1,024 offsets, the last of which may be shorter.
pub(crate) fn ends_of_parts(
    alloc: Global,
    offsets: &PackedNumbers,
    nulls: &Nulls,
) -> Result<Vec<PartEnds>, AllocError>
    ensures { IfOk result (λ ends. HaveEnds ends.items offsets.now nulls.now) }
{
    let count = offsets.len().div_ceil(1024);
    let mut ends = Vec::new(alloc);
    ends.reserve(count)?;
    for part in 0..count {
        ends.push_reserved(ends_of_part(offsets, nulls, part));
    }
    Ok(ends)
}

/// The ends of one part.
fn ends_of_part(offsets: &PackedNumbers, nulls: &Nulls, part: usize) -> PartEnds
    requires { 1024 * part < length offsets.now }
    ensures { AreEnds (1024 * part) (1024 * part + 1024) offsets.now nulls.now result }
{
    let len = offsets.len();
    let any_null = may_have_null(nulls, part);
    let start = 1024 * part;
    let end = start + (len - start).min(1024);
    ends_between(offsets, nulls, start, end, any_null)
}

/// Whether NULL may stand in a part.
fn may_have_null(nulls: &Nulls, part: usize) -> bool
    ensures { OnFalse result (AreClear (1024 * part) (1024 * part + 1024) nulls.now) }
{
    match nulls.plane(part) {
        Some(plane) => !plane.is_clear(),
        None => true,
    }
}

/// The ends of the offsets from a place up to another one. The flags are read only where NULL may stand.
fn ends_between(
    offsets: &PackedNumbers,
    nulls: &Nulls,
    start: usize,
    end: usize,
    any_null: bool,
) -> PartEnds
    requires some { start ≤ end }
    requires there { end ≤ length offsets.now }
    requires clear { OnFalse any_null (AreClear start end nulls.now) }
    ensures { AreEnds start end offsets.now nulls.now result }
{
    let (mut has_null, mut ends) = (false, None);
    for place in start..end {
        if is_null_at(nulls, place, any_null) {
            has_null = true;
        } else {
            ends = Some(wider(ends, offsets.at(place)));
        }
    }
    PartEnds { has_null, ends }
}

fn is_null_at(nulls: &Nulls, place: usize, any_null: bool) -> bool
    requires { OnFalse any_null (slice_index_or nulls.now place false ≡ false) }
    ensures { result ≡ slice_index_or nulls.now place false }
{
    any_null && nulls.at(place)
}

/// The ends with one offset more.
fn wider(ends: Option<(u64, u64)>, offset: u64) -> (u64, u64)
    ensures { result ≡ with_offset ends offset }
{
    match ends {
        Some((least, greatest)) => (least.min(offset), greatest.max(offset)),
        None => (offset, offset),
    }
}
