//! Values counted in their groups, each once.
ghost use Rattle.std.specs.Prelude.{length, take, ◌≡◌, ◌≤◌};
ghost use Rattle.cq_values.specs.Lent.{owned};
ghost use Rattle.cq_hash_groups_sums.specs.Puts.{most_before};
ghost use Rattle.cq_hash_groups_distinct.specs.Sets.{AreSizes, AreAllWithin, CountsValue, IsGroupAt};

use cq_hash_keys::KeyTable;
use cq_values::Lent;

/// Counts the values of the keys from a number on in their groups.
pub(crate) fn count_new(met: &KeyTable, from: usize, counts: &mut Vec<u64>)
    requires from { from ≤ length met.now.keys }
    requires width { met.now.width ≡ 2 }
    requires sizes { AreSizes (take from met.now.keys) counts.old.items }
    ensures sizes { AreSizes met.now.keys counts.new.items }
    ensures same { length counts.new.items ≡ length counts.old.items }
{
    for key in from..met.len() {
        count_value(counts, &met.lend(key, 0), &met.lend(key, 1));
    }
}

/// Counts a value in the group of a number. NULL is no value.
fn count_value(counts: &mut Vec<u64>, group: &Lent<'_>, value: &Lent<'_>)
    requires { AreAllWithin (most_before 1) counts.old.items }
    ensures counts { CountsValue (owned group.now) (owned value.now) counts.old.items counts.new.items }
    ensures same { length counts.new.items ≡ length counts.old.items }
{
    if value.is_null() {
        return;
    }
    if let Some(group) = group_at(group) {
        if group < counts.len() {
            counts[group] = counts[group] + 1;
        }
    }
}

/// The group that a number stands for.
fn group_at(number: &Lent<'_>) -> Option<usize>
    ensures { IsGroupAt (owned number.now) result }
{
    match number {
        Lent::Number(n) => usize::try_from(*n).ok(),
        _ => None,
    }
}
