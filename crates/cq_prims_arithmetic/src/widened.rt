//! Numbers above a base, read as numbers of 64 bits.
ghost use Rattle.std.specs.Prelude.{IfOk, map, pos, ◌+ℤ◌, ◌≡◌};
ghost use Rattle.cq_vectors_stored.specs.LentColumns.{FitAbove};
ghost use Rattle.cq_vectors_stored.specs.Offsets.{offsets_in};

use crate::clear::clear_nulls;
use cq_vectors::{Buffers, Numbers};
use cq_vectors_masks::Plane;
use cq_vectors_stored::{Narrow, Offsets};
use std::alloc::{AllocError, Global};

/// The same numbers, each in 64 bits.
pub(crate) fn widened(
    alloc: Global,
    buffers: &mut Buffers,
    narrow: &Narrow<'_>,
) -> Result<Numbers, AllocError>
    ensures { IfOk result (λ numbers. numbers ≡ narrow.now) }
{
    let (base, offsets) = narrow.parts();
    let mut values = numbers_above(alloc, buffers, base, &offsets)?;
    let flags = narrow.nulls();
    clear_nulls(&mut values, flags);
    let mut nulls = Plane::new();
    nulls.set_copy(flags);
    Ok(Numbers::new(values, nulls))
}

fn numbers_above(
    alloc: Global,
    buffers: &mut Buffers,
    base: i64,
    offsets: &Offsets<'_>,
) -> Result<Vec<i64>, AllocError>
    requires { FitAbove base (offsets_in offsets.now) }
    ensures { IfOk result (λ made. made.items ≡ map (λ o. base +ℤ pos o) (offsets_in offsets.now)) }
{
    let len = offsets.len();
    let mut values = buffers.numbers(alloc);
    values.reserve(len)?;
    for i in 0..len {
        values.push_reserved(base + i64::from(offsets.at(i)));
    }
    Ok(values)
}
