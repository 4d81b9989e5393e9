//! Values that are met in groups.
ghost use Rattle.std.specs.Prelude.{OnOk, length, ◌<◌, ◌^◌, ◌≡◌};
ghost use Rattle.cq_hash_groups_sums.specs.Puts.{AreNumbers};
ghost use Rattle.cq_hash_groups_distinct.specs.Sets.{AddsColumns, AddsValues};

use crate::group_column::lay_groups;
use cq_hash_groups_sums::one_group;
use cq_hash_keys::KeyTable;
use cq_values::Lent;
use cq_vectors::{Form, Vector};
use cq_vectors_masks::Plane;
use cq_vectors_stored::LentNumbers;
use std::alloc::{AllocError, Global};

/// Puts in what is new of the values in the groups of their numbers. The other lists are room to work in.
pub(crate) fn meet(
    alloc: Global,
    met: &mut KeyTable,
    count: usize,
    numbers: &[usize],
    values: &Vector<'_>,
    groups: &mut Vec<i64>,
    none: &mut Plane,
    keys: &mut Vec<usize>,
) -> Result<(), AllocError>
    requires width { met.old.width ≡ 2 }
    requires few { count < 2 ^ 63 }
    requires there { AreNumbers count numbers.now }
    requires same { length numbers.now ≡ length values.now }
    ensures { OnOk result (AddsValues met.old numbers.now values.now met.new) }
{
    if let Some(group) = one_group(count, numbers) {
        let one = Lent::Number(group as i128);
        let column = Vector::new(Form::Constant(one, values.len()));
        return meet_columns(alloc, met, &column, values, keys);
    }
    lay_groups(count, numbers, groups)?;
    none.set_all(false, values.len());
    let column = Vector::new(Form::LentNumbers(LentNumbers::new(groups.as_slice(), none)));
    meet_columns(alloc, met, &column, values, keys)
}

/// Puts in what is new of the keys of two columns.
fn meet_columns<'c, 'v>(
    alloc: Global,
    met: &mut KeyTable,
    groups: &'c Vector<'v>,
    values: &'c Vector<'v>,
    keys: &mut Vec<usize>,
) -> Result<(), AllocError>
    requires width { met.old.width ≡ 2 }
    requires same { length groups.now ≡ length values.now }
    ensures { OnOk result (AddsColumns met.old groups.now values.now met.new) }
{
    let mut columns: Vec<&'c Vector<'v>> = Vec::new(alloc);
    columns.reserve(2)?;
    columns.push_reserved(groups);
    columns.push_reserved(values);
    met.add(alloc, &columns, values.len(), keys)
}
