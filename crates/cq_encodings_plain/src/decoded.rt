//! A vector's worth of values that were decoded.
ghost use Rattle.std.specs.Prelude.{[], IfOk, length, map, ◌++◌, ◌<◌, ◌∷◌, ◌≡◌};
ghost use Rattle.cq_encodings_plain.specs.Kind.{datum};
ghost use Rattle.cq_values.specs.Lent.{owned};

use crate::kind::{Kind, lend_unless};
use cq_values::{Lent, Value};
use std::alloc::{AllocError, Global};
use std::marker::Model;

/// Room for 1,024 values, made once and used for one decoding after the other. Texts are lent by what was decoded.
#[derive(Drop)]
pub struct Decoded<'a> {
    pub(crate) values: Vec<Lent<'a>>,
}

impl<'a> Model for Decoded<'a> {
    ghost use Rattle.std.specs.Prelude.{List, map, vec_capacity, ◌≤◌};
    ghost use Rattle.cq_values.specs.Lent.{owned};
    ghost use Rattle.cq_values.specs.declared.value.Value.{Value as Datum};

    ghost Value = { List Datum };

    ghost view = { λ d. map owned d.values.items };

    ghost invariant = { λ d. 1024 ≤ vec_capacity d.values };
}

impl<'a> Decoded<'a> {
    /// No value yet. An error comes where there is no memory for 1,024.
    pub fn new(alloc: Global) -> Result<Decoded<'a>, AllocError>
        ensures { IfOk result (λ decoded. decoded ≡ []) }
    {
        let mut values: Vec<Lent<'a>> = Vec::new(alloc);
        values.reserve(1024)?;
        Ok(Decoded { values })
    }

    pub fn len(&self) -> usize
        ensures { result ≡ length self.now }
    {
        self.values.len()
    }

    /// The values, for loops.
    pub fn values(&self) -> &[Lent<'a>]
        ensures { map owned result.now ≡ self.now }
    {
        self.values.as_slice()
    }

    pub fn clear(&mut self)
        ensures { self.new ≡ [] }
    {
        self.values.clear();
    }

    /// Lends a value behind the others. Takes no memory.
    pub fn push_value(&mut self, value: &'a Value)
        requires { length self.old < 1024 }
        ensures { self.new ≡ self.old ++ value.now ∷ [] }
    {
        self.values.push_reserved(value.lend());
    }

    /// Puts what a number stands for behind the others, or NULL where the flag says so. Takes no memory.
    pub fn push_number(&mut self, kind: Kind, number: i128, is_null: bool)
        requires { length self.old < 1024 }
        ensures { self.new ≡ self.old ++ datum kind number is_null ∷ [] }
    {
        self.values
            .push_reserved(lend_unless(kind, number, is_null));
    }
}
