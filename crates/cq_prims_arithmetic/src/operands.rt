//! The vectors of an operation.
ghost use Rattle.std.specs.Prelude.{length, ◌≡◌};
ghost use Rattle.std.specs.Simd.Lanes.{zip2};
ghost use Rattle.cq_prims_arithmetic.specs.Operation.{AllAddInRange, lifted};

use crate::operation::Operation;
use cq_vectors::Vector;

/// Two vectors of one length, and what is done with them place by place. No result leaves 128 bits.
#[derive(Drop)]
pub(crate) struct Operands<'v, 'x, 'y, O: Operation> {
    pub(crate) operation: O,
    pub(crate) a: &'v Vector<'x>,
    pub(crate) b: &'v Vector<'y>,
    ghost same: { length a.now ≡ length b.now },
    ghost fits: { AllAddInRange (zip2 (lifted O.apply) a.now b.now) },
}
