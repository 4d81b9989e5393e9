//! Numbers or days of one column, as they come.
ghost use Rattle.std.specs.Prelude.{[], IfOk, OnErr, OnOk, length, ◌++◌, ◌<◌, ◌∷◌, ◌≡◌};
ghost use Rattle.cq_encodings_plain.specs.Plain.{plain_values};
ghost use Rattle.cq_values.specs.Lent.{owned};
ghost use Rattle.cq_values.specs.declared.value.Value.TheVariants.{Null};
ghost use Rattle.cq_writestore_rows.specs.TypedColumn.{Puts};
ghost use Rattle.std.specs.Prelude.{slice_index_or};

use cq_encodings_plain::{Kind, Nulls, Plain, PlainNumbers, lend_unless, number_of};
use cq_values::Lent;
use cq_vectors_masks::Plane;
use std::alloc::{AllocError, Global};
use std::marker::Model;

/// At most 1,024 numbers or days, with flags where NULL stands: there the number is 0.
#[derive(Drop)]
pub(crate) struct NumberColumn {
    kind: Kind,
    numbers: Vec<i64>,
    nulls: Plane,
}

impl Model for NumberColumn {
    ghost use Rattle.std.specs.Prelude.{List, length, pos, ◌≡◌};
    ghost use Rattle.std.specs.Simd.Lanes.{zip2};
    ghost use Rattle.cq_encodings_plain.specs.Kind.{datum};
    ghost use Rattle.cq_encodings_plain.specs.Nulls.{NothingWhere};
    ghost use Rattle.cq_values.specs.declared.value.Value.{Value as Datum};

    ghost Value = { List Datum };

    ghost view = { λ c. zip2 (datum c.kind) c.numbers.items c.nulls };

    ghost invariant = { λ c. (length c.nulls ≡ length c.numbers.items) × NothingWhere (pos 0) c.nulls c.numbers.items };
}

impl NumberColumn {
    /// An error comes where there is no memory for 1,024 numbers.
    pub(crate) fn new(alloc: Global, kind: Kind) -> Result<NumberColumn, AllocError>
        ensures { IfOk result (λ column. column ≡ []) }
    {
        Ok(NumberColumn {
            kind,
            numbers: Vec::with_capacity(alloc, 1024)?,
            nulls: Plane::new(),
        })
    }

    /// Puts a value behind the others, if it is of the kind and has 64 bits.
    pub(crate) fn push(&mut self, value: &Lent<'_>) -> Result<bool, AllocError>
        requires { length self.old < 1024 }
        ensures ok { IfOk result (Puts (owned value.now) self.old self.new) }
        ensures err { OnErr result (self.new ≡ self.old) }
    {
        match number_of(self.kind, value, 0) {
            Some(number) => {
                self.numbers.push(number)?;
                self.nulls.push(value.is_null());
                Ok(true)
            }
            None => Ok(false),
        }
    }

    /// The value at a place.
    pub(crate) fn value_at(&self, place: usize) -> Lent<'_>
        requires { place < length self.now }
        ensures { owned result ≡ slice_index_or self.now place Null }
    {
        let _len = self.nulls.len();
        lend_unless(
            self.kind,
            i128::from(self.numbers[place]),
            self.nulls.get(place),
        )
    }

    pub(crate) fn len(&self) -> usize
        ensures { result ≡ length self.now }
    {
        self.numbers.len()
    }

    pub(crate) fn into_plain(self, alloc: Global) -> Result<Plain, AllocError>
        ensures { IfOk result (λ plain. plain_values plain ≡ self) }
    {
        let nulls = Nulls::of_plane(alloc, self.nulls)?;
        Ok(Plain::Numbers(PlainNumbers::of_parts(self.kind, self.numbers, nulls)))
    }
}
