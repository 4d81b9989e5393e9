//! Values as they were first met, numbers side by side in 64 bits for as long as there is nothing else.
ghost use Rattle.std.specs.Prelude.{IfOk, IfSome, OnErr, OnOk, [], length, map, slice_index_or, take, ◌++◌, ◌<◌, ◌∷◌, ◌≡◌, ◌≤◌};
ghost use Rattle.cq_values.specs.Lent.{owned};
ghost use Rattle.cq_values.specs.declared.value.Value.TheVariants.{Null, Number};
ghost use Rattle.cq_hash_keys_values.specs.Kept.{kept_values};

use cq_values::{Lent, Value};
use std::alloc::{AllocError, Global};

/// Numbers of 64 bits, or any values once one of them was none.
#[derive(Drop)]
pub(crate) enum Kept {
    Numbers(Vec<i64>),
    Values(Vec<Value>),
}

impl Kept {
    /// Takes no memory.
    pub(crate) fn new(alloc: Global) -> Kept
        ensures { kept_values result ≡ [] }
    {
        Kept::Numbers(Vec::new(alloc))
    }

    pub(crate) fn len(&self) -> usize
        ensures { result ≡ length (kept_values self.now) }
    {
        match self {
            Kept::Numbers(numbers) => numbers.len(),
            Kept::Values(values) => values.len(),
        }
    }

    /// The value at a place.
    pub(crate) fn lend(&self, place: usize) -> Lent<'_>
        requires { place < length (kept_values self.now) }
        ensures { owned result ≡ slice_index_or (kept_values self.now) place Null }
    {
        match self {
            Kept::Numbers(numbers) => Lent::Number(i128::from(numbers[place])),
            Kept::Values(values) => values[place].lend(),
        }
    }

    /// Puts a value behind the others.
    pub(crate) fn push(&mut self, alloc: Global, value: &Lent<'_>) -> Result<(), AllocError>
        ensures ok { OnOk result (kept_values self.new ≡ kept_values self.old ++ owned value.now ∷ []) }
        ensures err { OnErr result (kept_values self.new ≡ kept_values self.old) }
    {
        match self {
            Kept::Numbers(numbers) => {
                if let Some(number) = in_64_bits(value) {
                    numbers.push(number)?;
                    return Ok(());
                }
                let mut values = copies(alloc, numbers.as_slice())?;
                values.push(value.to_value(alloc)?)?;
                *self = Kept::Values(values);
                Ok(())
            }
            Kept::Values(values) => {
                let copy = value.to_value(alloc)?;
                values.push(copy)?;
                Ok(())
            }
        }
    }

    /// Leaves the first ones.
    pub(crate) fn truncate(&mut self, len: usize)
        requires { len ≤ length (kept_values self.old) }
        ensures { kept_values self.new ≡ take len (kept_values self.old) }
    {
        match self {
            Kept::Numbers(numbers) => numbers.truncate(len),
            Kept::Values(values) => values.truncate(len),
        }
    }
}

/// The number, if it is one of 64 bits.
fn in_64_bits(value: &Lent<'_>) -> Option<i64>
    ensures { IfSome result (λ n. owned value.now ≡ Number n) }
{
    match value {
        Lent::Number(number) => i64::try_from(*number).ok(),
        _ => None,
    }
}

/// The numbers as values.
fn copies(alloc: Global, numbers: &[i64]) -> Result<Vec<Value>, AllocError>
    ensures { IfOk result (λ values. values.items ≡ map Number numbers.now) }
{
    let mut values = Vec::new(alloc);
    values.reserve(numbers.len())?;
    for number in numbers {
        values.push_reserved(Value::Number(i128::from(*number)));
    }
    Ok(values)
}
