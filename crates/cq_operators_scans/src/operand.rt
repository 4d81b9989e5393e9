//! Vectors that are lent by a scan, or were worked out.
//!
//! An [`Operand`] is what a kernel reads: [`Operand::vector`] lends its values, whichever it is, and costs nothing. It is let
//! go before its scan. [`lend_vectors`] lends those of several, for one list of them.
ghost use Rattle.std.specs.Prelude.{◌≡◌, IfOk, map};
ghost use Rattle.cq_operators_scans.specs.Operand.{values_in};

use cq_vectors::{Buffers, Vector};
use std::alloc::{AllocError, Global};

/// A column that a scan lends, or values that were worked out.
#[derive(Drop)]
pub enum Operand<'s, 'a> {
    Lent(&'s Vector<'a>),
    Own(Vector<'a>),
}

impl<'s, 'a> Operand<'s, 'a> {
    /// The values, wherever they are.
    pub fn vector(&self) -> &Vector<'a>
        ensures { result.now ≡ values_in self.now }
    {
        match self {
            Operand::Lent(vector) => vector,
            Operand::Own(vector) => vector,
        }
    }

    /// Lets the values go, and keeps the memory of those that were worked out.
    pub fn give_back(self, buffers: &mut Buffers) {
        if let Operand::Own(vector) = self {
            buffers.take_back(vector);
        }
    }
}

/// The values of operands, lent.
pub fn lend_vectors<'v, 's, 'a>(
    alloc: Global,
    operands: &'v [Operand<'s, 'a>],
) -> Result<Vec<&'v Vector<'a>>, AllocError>
    ensures { IfOk result (λ lent. map (λ vector. vector.now) lent.items ≡ map values_in operands.now) }
{
    let mut lent: Vec<&'v Vector<'a>> = Vec::new(alloc);
    lent.reserve(operands.len())?;
    for operand in operands {
        lent.push_reserved(operand.vector());
    }
    Ok(lent)
}
