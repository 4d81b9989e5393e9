//! A flag more in a plane, and the first flags gone from it.
ghost use Rattle.std.specs.Prelude.{true, drop, length, slice_set, ◌≡◌, ◌<◌, ◌≤◌};

use cq_vectors_masks::{PlaceTest, Plane, WordTest, answers};

/// Sets the flag of a place: it goes over the words of the plane.
pub(crate) fn set_flag(plane: &mut Plane, place: usize)
    requires { place < length plane.old }
    ensures { plane.new ≡ slice_set plane.old place true }
{
    let mut before = Plane::new();
    before.set_copy(plane);
    let mut one = Plane::new();
    one.set_where(&OnePlace { place }, before.len());
    plane.set_or(&before, &one);
}

/// That a place is this one.
#[derive(Drop)]
struct OnePlace {
    place: usize,
}

impl PlaceTest for OnePlace {
    ghost use Rattle.std.specs.Prelude.{◌==◌};

    ghost places = { λ t. 1024 };

    ghost holds = { λ t place. place == t.place };

    fn at(&self, i: usize) -> bool {
        i == self.place
    }
}

impl WordTest for OnePlace {
    fn word(&self, from: usize) -> u64 {
        if from <= self.place && self.place < from + 64 {
            answers(self, from, 64)
        } else {
            0
        }
    }
}

/// Drops the first flags: it goes over those that stay.
pub(crate) fn drop_flags(plane: &mut Plane, count: usize)
    requires { count ≤ length plane.old }
    ensures { plane.new ≡ drop count plane.old }
{
    let mut before = Plane::new();
    before.set_copy(plane);
    let left = before.len() - count;
    plane.set_where(
        &Behind {
            plane: &before,
            from: count,
        },
        left,
    );
}

/// That the flag of a place so much further on is set.
#[derive(Drop)]
struct Behind<'a> {
    plane: &'a Plane,
    from: usize,
}

impl PlaceTest for Behind<'_> {
    ghost use Rattle.std.specs.Prelude.{false, length, slice_index_or, ◌+◌, ◌-◌};

    ghost places = { λ t. length t.plane.now - t.from };

    ghost holds = { λ t place. slice_index_or t.plane.now (t.from + place) false };

    fn at(&self, i: usize) -> bool {
        let _len = self.plane.len();
        self.plane.get(self.from + i)
    }
}

impl WordTest for Behind<'_> {
    fn word(&self, from: usize) -> u64 {
        answers(self, from, 64)
    }
}
