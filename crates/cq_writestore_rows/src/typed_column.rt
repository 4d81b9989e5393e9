//! The values of one column, as they come.
ghost use Rattle.std.specs.Prelude.{[], IfOk, OnErr, OnOk, length, slice_index_or, ◌++◌, ◌<◌, ◌∷◌, ◌≡◌};
ghost use Rattle.cq_encodings_plain.specs.Plain.{plain_values};
ghost use Rattle.cq_values.specs.Lent.{owned};
ghost use Rattle.cq_values.specs.declared.value.Value.TheVariants.{Null};
ghost use Rattle.cq_writestore_rows.specs.TypedColumn.{Puts, column_values};

use crate::number_column::NumberColumn;
use crate::text_column::TextColumn;
use cq_encodings_plain::{Kind, Plain};
use cq_values::{Lent, Ty, Value};
use std::alloc::{AllocError, Global};

/// Values of a type, or any values once one of them did not fit.
#[derive(Drop)]
pub(crate) enum TypedColumn {
    Numbers(NumberColumn),
    Texts(TextColumn),
    Values(Vec<Value>),
}

impl TypedColumn {
    /// No value yet, of a type.
    pub(crate) fn new(alloc: Global, ty: Ty) -> Result<TypedColumn, AllocError>
        ensures { IfOk result (λ column. column_values column ≡ []) }
    {
        match ty {
            Ty::Integer => Ok(TypedColumn::Numbers(NumberColumn::new(alloc, Kind::Numbers)?)),
            Ty::Date => Ok(TypedColumn::Numbers(NumberColumn::new(alloc, Kind::Days)?)),
            Ty::Text => Ok(TypedColumn::Texts(TextColumn::new(alloc))),
        }
    }

    /// Puts a value behind the others.
    pub(crate) fn push(&mut self, alloc: Global, value: &Lent<'_>) -> Result<(), AllocError>
        requires { length (column_values self.old) < 1024 }
        ensures ok { OnOk result (column_values self.new ≡ column_values self.old ++ owned value.now ∷ []) }
        ensures err { OnErr result (column_values self.new ≡ column_values self.old) }
    {
        if self.put(value)? {
            return Ok(());
        }
        self.put_any(alloc, value)
    }

    /// Puts a value behind the others, which need be of no type from now on.
    fn put_any(&mut self, alloc: Global, value: &Lent<'_>) -> Result<(), AllocError>
        ensures ok { OnOk result (column_values self.new ≡ column_values self.old ++ owned value.now ∷ []) }
        ensures err { OnErr result (column_values self.new ≡ column_values self.old) }
    {
        let mut values = self.copies(alloc)?;
        values.push(value.to_value(alloc)?)?;
        *self = TypedColumn::Values(values);
        Ok(())
    }

    /// Puts a value behind the others, if it fits those of a type.
    fn put(&mut self, value: &Lent<'_>) -> Result<bool, AllocError>
        requires { length (column_values self.old) < 1024 }
        ensures ok { IfOk result (Puts (owned value.now) (column_values self.old) (column_values self.new)) }
        ensures err { OnErr result (column_values self.new ≡ column_values self.old) }
    {
        match self {
            TypedColumn::Numbers(numbers) => numbers.push(value),
            TypedColumn::Texts(texts) => texts.push(value),
            TypedColumn::Values(_) => Ok(false),
        }
    }

    /// Copies of the values.
    fn copies(&self, alloc: Global) -> Result<Vec<Value>, AllocError>
        ensures { IfOk result (λ copies. copies.items ≡ column_values self.now) }
    {
        let mut copies = Vec::new(alloc);
        for place in 0..self.len() {
            copies.push(self.value_at(place).to_value(alloc)?)?;
        }
        Ok(copies)
    }

    /// The value at a place.
    pub(crate) fn value_at(&self, place: usize) -> Lent<'_>
        requires { place < length (column_values self.now) }
        ensures { owned result ≡ slice_index_or (column_values self.now) place Null }
    {
        match self {
            TypedColumn::Numbers(numbers) => numbers.value_at(place),
            TypedColumn::Texts(texts) => texts.value_at(place),
            TypedColumn::Values(values) => values[place].lend(),
        }
    }

    fn len(&self) -> usize
        ensures { result ≡ length (column_values self.now) }
    {
        match self {
            TypedColumn::Numbers(numbers) => numbers.len(),
            TypedColumn::Texts(texts) => texts.len(),
            TypedColumn::Values(values) => values.len(),
        }
    }

    pub(crate) fn into_plain(self, alloc: Global) -> Result<Plain, AllocError>
        ensures { IfOk result (λ plain. plain_values plain ≡ column_values self) }
    {
        match self {
            TypedColumn::Numbers(numbers) => numbers.into_plain(alloc),
            TypedColumn::Texts(texts) => texts.into_plain(alloc),
            TypedColumn::Values(values) => Ok(Plain::Values(values)),
        }
    }
}
