//! Where the values of vectors are NULL.
ghost use Rattle.cq_vectors_masks.specs.Plane.{either};
ghost use Rattle.cq_model.specs.Condition.{is_null};
ghost use Rattle.cq_values.specs.Truth.{truth_of};
ghost use Rattle.std.specs.Bool.{OnTrue};
ghost use Rattle.std.specs.Prelude.{◌≡◌, false, length, map, replicate};
ghost use Rattle.std.specs.Simd.Lanes.{zip2};

use crate::null_test::NullTest;
use cq_vectors::{Form, Vector};
use cq_vectors_masks::{Plane, TruthMask};

/// Where the value is NULL: never Unknown.
pub fn is_null(a: &Vector<'_>, to: &mut TruthMask)
    ensures { to.new ≡ map (λ v. truth_of (is_null v)) a.now }
{
    match a.nulls() {
        Some(nulls) => to.set_tested(nulls),
        None => to.set_tested(&nulls_of(a)),
    }
}

/// Where one of two values is NULL.
pub(crate) fn nulls_of_both(a: &Vector<'_>, b: &Vector<'_>) -> Plane
    requires { length a.now ≡ length b.now }
    ensures nulls { result ≡ zip2 either (map is_null a.now) (map is_null b.now) }
    ensures long { length result ≡ length a.now }
{
    let mut nulls = Plane::new();
    match (a.nulls(), b.nulls()) {
        (Some(m), Some(n)) => nulls.set_or(m, n),
        (Some(m), None) if is_known_constant(b) => nulls.set_copy(m),
        (None, Some(n)) if is_known_constant(a) => nulls.set_copy(n),
        _ => nulls.set_or(&nulls_of(a), &nulls_of(b)),
    }
    nulls
}

/// Whether each place has one value, which is not NULL.
fn is_known_constant(vector: &Vector<'_>) -> bool
    ensures { OnTrue result (map is_null vector.now ≡ replicate (length vector.now) false) }
{
    match vector.form() {
        Form::Constant(value, _) => !value.is_null(),
        _ => false,
    }
}

pub(crate) fn nulls_of(a: &Vector<'_>) -> Plane
    ensures { result ≡ map is_null a.now }
{
    let mut nulls = Plane::new();
    match a.form() {
        Form::Numbers(numbers) => nulls.set_copy(numbers.nulls()),
        Form::Wide(numbers) => nulls.set_copy(numbers.nulls()),
        Form::Days(days) => nulls.set_copy(days.nulls()),
        Form::Texts(texts) => nulls.set_copy(texts.nulls()),
        Form::Values(values) => {
            let values = values.as_slice();
            nulls.set_where(&NullTest { values }, values.len());
        }
        Form::Constant(value, len) => nulls.set_all(value.is_null(), *len),
        Form::Narrow(numbers) => nulls.set_copy(numbers.nulls()),
        Form::NarrowDays(days) => nulls.set_copy(days.nulls()),
        Form::LentNumbers(numbers) => nulls.set_copy(numbers.nulls()),
        Form::LentDays(days) => nulls.set_copy(days.nulls()),
        Form::Codes(texts) => nulls.set_copy(texts.nulls()),
        Form::Run(texts) => nulls.set_copy(texts.nulls()),
    }
    nulls
}
