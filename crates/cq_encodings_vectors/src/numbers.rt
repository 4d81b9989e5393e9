//! Numbers and days of a part where they stand.
ghost use Rattle.std.specs.Int.{w64};
ghost use Rattle.std.specs.Prelude.{IfSome, length, ◌*◌, ◌≡◌, ◌≤◌};
ghost use Rattle.cq_encodings_vectors.specs.Parts.{items_of, part_of};
ghost use Rattle.cq_vectors_stored.specs.Columns.{AllFit};
ghost use Rattle.cq_vectors.specs.Form.{values_in};
ghost use Rattle.cq_vectors_stored.specs.LentColumns.{DaysAbove, NothingWhere, days_above};
ghost use Rattle.cq_vectors_stored.specs.Offsets.{offsets_in};

use crate::offsets::lend_offsets;
use cq_encodings::Packed;
use cq_encodings_plain::{Kind, PlainNumbers};
use cq_vectors::Form;
use cq_vectors_masks::Plane;
use cq_vectors_stored::{LentNumbers, Narrow, NarrowDays, Offsets};

/// What lies above the least one, or None where the offsets are of no width that is lent.
pub(crate) fn lend_packed(packed: &Packed, k: usize) -> Option<Form<'_>>
    requires { 1024 * k ≤ length packed.now }
    ensures { IfSome result (λ form. values_in form ≡ part_of k packed.now) }
{
    let (kind, least, offsets, nulls) = packed.parts();
    let plane = nulls.plane(k)?;
    let offsets = lend_offsets(offsets, k)?;
    match kind {
        Kind::Numbers => Some(Form::Narrow(Narrow::new(least, offsets, plane))),
        Kind::Days => {
            let days = narrow_days(least, offsets, plane)?;
            Some(Form::NarrowDays(days))
        }
    }
}

/// Days above one, or None where its number does not fit 32 bits.
fn narrow_days<'a>(least: i64, offsets: Offsets<'a>, plane: &'a Plane) -> Option<NarrowDays<'a>>
    requires few { length (offsets_in offsets) ≤ 1024 }
    requires same { length plane.now ≡ length (offsets_in offsets) }
    requires clear { NothingWhere 0 plane.now (offsets_in offsets) }
    requires fit { DaysAbove least (offsets_in offsets) }
    ensures { IfSome result (λ days. days ≡ days_above least (offsets_in offsets.entry) plane.now) }
{
    match i32::try_from(least) {
        Ok(base) => Some(NarrowDays::new(base, offsets, plane)),
        Err(_) => None,
    }
}

/// Numbers of 64 bits, or None where they are those of days.
pub(crate) fn lend_numbers(plain: &PlainNumbers, k: usize) -> Option<Form<'_>>
    requires { 1024 * k ≤ length plain.now }
    ensures { IfSome result (λ form. values_in form ≡ part_of k plain.now) }
{
    let (kind, numbers, nulls) = plain.parts();
    let plane = nulls.plane(k)?;
    let numbers = numbers_of(numbers, k);
    match kind {
        Kind::Numbers => Some(Form::LentNumbers(LentNumbers::new(numbers, plane))),
        Kind::Days => None,
    }
}

/// The numbers of a part. Each of them can be kept in 64 bits.
fn numbers_of(numbers: &[i64], k: usize) -> &[i64]
    requires { 1024 * k ≤ length numbers.now }
    ensures part { result.now ≡ items_of k numbers.now }
    ensures fit { AllFit w64 result.now }
{
    let start = 1024 * k;
    let end = start + (numbers.len() - start).min(1024);
    let part = &numbers[start..end];
    fit_all(part);
    part
}

/// Each number of a slice can be kept in 64 bits. It is a loop for the proof alone, and the compiler leaves it out.
pub(crate) fn fit_all(numbers: &[i64])
    ensures { AllFit w64 numbers.now }
{
    for number in numbers {
        let _number = *number;
    }
}
