//! Comparisons of vectors.
ghost use Rattle.cq_prims.specs.OneTruth.{HasOneTruth};
ghost use Rattle.cq_prims.specs.Turned.{turned};
ghost use Rattle.cq_values.specs.Comparison.{compared};
ghost use Rattle.cq_values.specs.declared.comparison.Comparison.TheVariants.{Equal, Less};
ghost use Rattle.cq_values.specs.Lent.{owned};
ghost use Rattle.std.specs.Bool.{OnTrue};
ghost use Rattle.std.specs.Prelude.{◌≡◌, IfSome, length, replicate};
ghost use Rattle.std.specs.Simd.Lanes.{zip2};

use crate::equal_days::EqualDays;
use crate::equal_numbers::EqualNumbers;
use crate::equal_wide::EqualWide;
use crate::lent_test::LentTest;
use crate::less_days::LessDays;
use crate::less_numbers::LessNumbers;
use crate::less_wide::LessWide;
use crate::narrow_side::NarrowSide;
use crate::nulls::nulls_of_both;
use crate::sides::{Sides, sides_of};
use cq_prims_lanes::set_known_by;
use cq_prims_texts::{EqualTexts, LessTexts, compare_entries};
use cq_values::{Comparison, Lent, Truth};
use cq_vectors::{Form, Vector};
use cq_vectors_masks::TruthMask;

/// The truth of the comparison in each place: numbers and days by lanes, texts byte by byte.
pub fn compare(comparison: Comparison, a: &Vector<'_>, b: &Vector<'_>, to: &mut TruthMask)
    requires { length a.now ≡ length b.now }
    ensures { to.new ≡ zip2 (compared comparison) a.now b.now }
{
    if let Some(truth) = constant_truth(comparison, a, b) {
        return to.set_all(truth, a.len());
    }
    if let Some(side) = NarrowSide::of(a, b) {
        return side.compare(comparison, to);
    }
    if let Some(side) = NarrowSide::of(b, a) {
        return side.compare(turned(comparison), to);
    }
    if compare_codes(comparison, a, b, to) {
        return;
    }
    if compare_codes(turned(comparison), b, a, to) {
        return;
    }
    compare_sides(comparison, a, b, to);
}

/// The truth of the comparison, if the left side has texts by their codes, and few entries, and the right one a text.
fn compare_codes(comparison: Comparison, a: &Vector<'_>, b: &Vector<'_>, to: &mut TruthMask) -> bool
    requires { length a.now ≡ length b.now }
    ensures { OnTrue result (to.new ≡ zip2 (compared comparison) a.now b.now) }
{
    match (a.form(), constant_of(b)) {
        (Form::Codes(texts), Some(Lent::Text(text))) => {
            compare_entries(comparison, texts, text, to)
        }
        _ => false,
    }
}

/// The comparison that says the same of the sides turned.
pub fn turned(comparison: Comparison) -> Comparison
    ensures { result ≡ turned comparison }
{
    match comparison {
        Comparison::Equal => Comparison::Equal,
        Comparison::NotEqual => Comparison::NotEqual,
        Comparison::Less => Comparison::Greater,
        Comparison::LessOrEqual => Comparison::GreaterOrEqual,
        Comparison::Greater => Comparison::Less,
        Comparison::GreaterOrEqual => Comparison::LessOrEqual,
    }
}

fn compare_sides(comparison: Comparison, a: &Vector<'_>, b: &Vector<'_>, to: &mut TruthMask)
    requires { length a.now ≡ length b.now }
    ensures { to.new ≡ zip2 (compared comparison) a.now b.now }
{
    match comparison {
        Comparison::Equal => set_equal(a, b, to),
        Comparison::Less => set_less(a, b, to),
        Comparison::Greater => set_less(b, a, to),
        Comparison::NotEqual => {
            set_equal(a, b, to);
            to.negate();
        }
        Comparison::LessOrEqual => {
            set_less(b, a, to);
            to.negate();
        }
        Comparison::GreaterOrEqual => {
            set_less(a, b, to);
            to.negate();
        }
    }
}

/// The truth that a comparison has in each place, where two constants or a NULL tell it.
fn constant_truth(comparison: Comparison, a: &Vector<'_>, b: &Vector<'_>) -> Option<Truth>
    requires { length a.now ≡ length b.now }
    ensures { IfSome result (HasOneTruth comparison a.now b.now) }
{
    match (constant_of(a), constant_of(b)) {
        (Some(v), Some(w)) => Some(cq_model_eval::compare(comparison, v, w)),
        (Some(v), None) if v.is_null() => Some(Truth::Unknown),
        (None, Some(w)) if w.is_null() => Some(Truth::Unknown),
        _ => None,
    }
}

pub(crate) fn constant_of<'b>(vector: &'b Vector<'_>) -> Option<&'b Lent<'b>>
    ensures { IfSome result (λ value. vector.now ≡ replicate (length vector.now) (owned value.now)) }
{
    match vector.form() {
        Form::Constant(value, _) => Some(value),
        _ => None,
    }
}

fn set_less(a: &Vector<'_>, b: &Vector<'_>, to: &mut TruthMask)
    requires { length a.now ≡ length b.now }
    ensures { to.new ≡ zip2 (compared Less) a.now b.now }
{
    let nulls = nulls_of_both(a, b);
    match sides_of(a, b) {
        Sides::Numbers(m, n) => set_known_by(&LessNumbers { a: m, b: n }, &nulls, to),
        Sides::Days(d, e) => set_known_by(&LessDays { a: d, b: e }, &nulls, to),
        Sides::Texts(t, u) => set_known_by(&LessTexts { a: t, b: u }, &nulls, to),
        Sides::Wide(m, n) => set_known_by(&LessWide { a: m, b: n }, &nulls, to),
        Sides::WideDays(d, e) => set_known_by(&LessWide { a: d, b: e }, &nulls, to),
        Sides::Mixed => {
            let comparison = Comparison::Less;
            set_known_by(&LentTest { comparison, a, b }, &nulls, to)
        }
    }
}

fn set_equal(a: &Vector<'_>, b: &Vector<'_>, to: &mut TruthMask)
    requires { length a.now ≡ length b.now }
    ensures { to.new ≡ zip2 (compared Equal) a.now b.now }
{
    let nulls = nulls_of_both(a, b);
    match sides_of(a, b) {
        Sides::Numbers(m, n) => set_known_by(&EqualNumbers { a: m, b: n }, &nulls, to),
        Sides::Days(d, e) => set_known_by(&EqualDays { a: d, b: e }, &nulls, to),
        Sides::Texts(t, u) => set_known_by(&EqualTexts { a: t, b: u }, &nulls, to),
        Sides::Wide(m, n) => set_known_by(&EqualWide { a: m, b: n }, &nulls, to),
        Sides::WideDays(d, e) => set_known_by(&EqualWide { a: d, b: e }, &nulls, to),
        Sides::Mixed => {
            let comparison = Comparison::Equal;
            set_known_by(&LentTest { comparison, a, b }, &nulls, to)
        }
    }
}
