//! The values of one column of a segment that is built, as they are gathered: as numbers or as texts where all are such.
ghost use Rattle.std.specs.Prelude.{IfOk, ◌≡◌};
ghost use Rattle.cq_encodings.specs.AnyEncoded.{encoded_values};
ghost use Rattle.cq_encodings_numbers.specs.Bounds.{AreBounds};
ghost use Rattle.cq_segments.specs.Gathered.{AreOfKind, gathered_values};

use crate::held_bounds::HeldBounds;
use crate::number_bounds::bounds_of_numbers;
use crate::text_bounds::bounds_of_texts;
use cq_encodings::{AnyEncoded, choose_lent, choose_numbers, choose_texts};
use cq_encodings_plain::Kind;
use cq_values::Lent;
use std::alloc::{AllocError, Global};

/// Values in their order. None of the numbers and texts is NULL.
#[derive(Drop)]
pub(crate) enum Gathered<'a> {
    Numbers(Kind, Vec<i64>),
    Texts(Vec<&'a str>),
    Values(Vec<Lent<'a>>),
}

impl<'a> Gathered<'a> {
    /// The values in the form that is best for them, and their bounds.
    pub(crate) fn encode(&self, alloc: Global) -> Result<(AnyEncoded, HeldBounds), AllocError>
        requires { AreOfKind self.now }
        ensures values { IfOk result (λ e. encoded_values e.0 ≡ gathered_values self.now) }
        ensures bounds { IfOk result (λ e. AreBounds e.1.has_null e.1.ends (gathered_values self.now)) }
    {
        match self {
            Gathered::Numbers(kind, numbers) => {
                let form = choose_numbers(alloc, *kind, numbers)?;
                Ok((form, bounds_of_numbers(alloc, *kind, numbers)?))
            }
            Gathered::Texts(texts) => {
                let form = choose_texts(alloc, texts)?;
                let bounds = bounds_of_texts(alloc, &form, texts)?;
                Ok((form, bounds))
            }
            Gathered::Values(values) => {
                let form = choose_lent(alloc, values)?;
                Ok((form, HeldBounds::of(alloc, values)?))
            }
        }
    }
}
