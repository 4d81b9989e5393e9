//! How two vectors can be compared.
ghost use Rattle.cq_prims.specs.Sides.{AreSidesOf};

use crate::day_side::DaySide;
use crate::number_side::NumberSide;
use crate::wide_side::WideSide;
use cq_prims_texts::TextSide;
use cq_vectors::Vector;

/// The two sides of a comparison, in a form that both have.
#[derive(Drop)]
pub(crate) enum Sides<'a> {
    Numbers(NumberSide<'a>, NumberSide<'a>),
    Days(DaySide<'a>, DaySide<'a>),
    Texts(TextSide<'a>, TextSide<'a>),
    Wide(WideSide<'a>, WideSide<'a>),
    WideDays(WideSide<'a>, WideSide<'a>),
    /// No form that both have: the values go one by one.
    Mixed,
}

pub(crate) fn sides_of<'a>(a: &'a Vector<'_>, b: &'a Vector<'_>) -> Sides<'a>
    ensures { AreSidesOf result a.now b.now }
{
    if let (Some(a), Some(b)) = (NumberSide::of(a), NumberSide::of(b)) {
        return Sides::Numbers(a, b);
    }
    if let (Some(a), Some(b)) = (DaySide::of(a), DaySide::of(b)) {
        return Sides::Days(a, b);
    }
    if let (Some(a), Some(b)) = (TextSide::of(a), TextSide::of(b)) {
        return Sides::Texts(a, b);
    }
    if let (Some(a), Some(b)) = (WideSide::of(a), WideSide::of(b)) {
        return Sides::Wide(a, b);
    }
    if let (Some(a), Some(b)) = (WideSide::of_days(a), WideSide::of_days(b)) {
        return Sides::WideDays(a, b);
    }
    Sides::Mixed
}
