//! The numbers of groups, as a column of keys reads them.
ghost use Rattle.std.specs.Prelude.{OnOk, map, pos, ◌<◌, ◌^◌, ◌≡◌};
ghost use Rattle.cq_hash_groups_sums.specs.Puts.{AreNumbers};

use std::alloc::AllocError;

/// The numbers of so many groups, in place of what stood in a list.
pub(crate) fn lay_groups(
    count: usize,
    numbers: &[usize],
    groups: &mut Vec<i64>,
) -> Result<(), AllocError>
    requires few { count < 2 ^ 63 }
    requires there { AreNumbers count numbers.now }
    ensures { OnOk result (groups.new.items ≡ map pos numbers.now) }
{
    groups.clear();
    groups.reserve(numbers.len())?;
    for place in 0..numbers.len() {
        groups.push_reserved(numbers[place] as i64);
    }
    Ok(())
}
