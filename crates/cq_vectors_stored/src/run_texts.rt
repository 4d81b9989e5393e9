//! Texts of a run, from one on, lent.
//!
//! A column is made of a part of a run and a plane of NULLs that a segment keeps, and does not change. Kernels read
//! `parts` and `nulls` as they stand; `lend` gives the value of one place. No call takes memory.
ghost use Rattle.std.specs.Prelude.{[], length, map, slice_index_or, ◌+◌, ◌≡◌, ◌≤◌};
ghost use Rattle.cq_model.specs.Condition.{is_null};
ghost use Rattle.cq_values.specs.Lent.{owned};
ghost use Rattle.cq_values.specs.declared.value.Value.TheVariants.{Null};
ghost use Rattle.cq_vectors_stored.specs.LentColumns.{NothingWhere, part_of, texts_from};

use crate::text_run::TextRun;
use cq_values::Lent;
use cq_vectors_masks::Plane;
use std::marker::Model;

/// At most 1,024 texts and NULLs. Where NULL stands the text is empty.
#[derive(Drop)]
pub struct RunTexts<'a> {
    texts: &'a TextRun,
    start: usize,
    nulls: &'a Plane,
}

impl<'a> Model for RunTexts<'a> {
    ghost use Rattle.std.specs.Prelude.{List};
    ghost use Rattle.cq_values.specs.declared.value.Value.{Value as Datum};
    ghost use Rattle.cq_vectors_stored.specs.LentColumns.{AreFrom, texts_from};

    ghost Value = { List Datum };

    ghost view = { λ c. texts_from c.texts.now c.start c.nulls.now };

    ghost invariant = { λ c. AreFrom c.texts.now c.start c.nulls.now };
}

impl<'a> RunTexts<'a> {
    /// As many texts as the plane has flags, from `start` on.
    pub fn new(texts: &'a TextRun, start: usize, nulls: &'a Plane) -> RunTexts<'a>
        requires there { start + length nulls.now ≤ length texts.now }
        requires clear { NothingWhere [] nulls.now (part_of texts.now start (length nulls.now)) }
        ensures { result ≡ texts_from texts.now start nulls.now }
    {
        let _flags = nulls.len();
        let _texts = texts.len();
        RunTexts {
            texts,
            start,
            nulls,
        }
    }

    pub fn len(&self) -> usize
        ensures len { result ≡ length self.now }
        ensures few { result ≤ 1024 }
    {
        self.nulls.len()
    }

    /// The run and the place in it of the first text, for kernels: the text is empty where NULL stands.
    pub fn parts(&self) -> (&'a TextRun, usize)
        ensures whole { self.now ≡ texts_from result.0.now result.1 (map is_null self.now) }
        ensures there { result.1 + length self.now ≤ length result.0.now }
        ensures few { length self.now ≤ 1024 }
    {
        (self.texts, self.start)
    }

    pub fn nulls(&self) -> &Plane
        ensures { result.now ≡ map is_null self.now }
    {
        self.nulls
    }

    /// The value of a place, and NULL past the end.
    pub fn lend(&self, place: usize) -> Lent<'_>
        ensures { owned result ≡ slice_index_or self.now place Null }
    {
        if place < self.nulls.len() && !self.nulls.get(place) {
            Lent::Text(self.texts.get(self.start + place))
        } else {
            Lent::Null
        }
    }
}
