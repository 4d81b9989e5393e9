//! Rows of tables and of results.
ghost use Rattle.std.proofs.Common.{ap};
ghost use Rattle.std.specs.Cmp.{partial_equiv_from_equiv};
ghost use Rattle.std.specs.Hash as fed;
ghost use Rattle.std.specs.Prelude.{◌++◌, ◌∷◌, ◌≡◌, IfOk, OnErr, OnOk, [], length};
ghost use Rattle.cq_values.specs.Lent.{owned};
ghost use Rattle.cq_values.specs.Order.{row_cmp, same_row};
ghost use Rattle.cq_values.specs.Keys.{same_row-equiv, same_row-same};
ghost use Rattle.cq_values.specs.Value.{column};

use crate::lent::{Lent, lend_column};
use crate::value::Value;
use std::alloc::{AllocError, Global};
use std::hash::{Hash, Hasher};
use std::marker::Model;

/// A row: a list of values.
#[derive(Debug, Drop)]
pub struct Row {
    values: Vec<Value>,
}

impl Model for Row {
    ghost use Rattle.cq_values.specs.Value.{Row as Values};

    ghost Value = { Values };

    ghost view = { λ r. r.values.items };
}

impl Row {
    pub fn new(alloc: Global) -> Row
        ensures { result ≡ [] }
    {
        let values = Vec::new(alloc);
        Row { values }
    }

    /// A row without values, with room for so many.
    pub fn with_capacity(alloc: Global, capacity: usize) -> Result<Row, AllocError>
        ensures { IfOk result (λ row. row ≡ []) }
    {
        let values = Vec::with_capacity(alloc, capacity)?;
        Ok(Row { values })
    }

    pub fn push(&mut self, value: Value) -> Result<(), AllocError>
        ensures ok { OnOk result (self.new ≡ self.old ++ value ∷ []) }
        ensures err { OnErr result (self.new ≡ self.old) }
    {
        self.values.push(value)?;
        Ok(())
    }

    /// Puts copies of these values behind the others. After an error some are missing.
    pub fn push_copies(&mut self, alloc: Global, values: &[Value]) -> Result<(), AllocError>
        ensures { OnOk result (self.new ≡ self.old ++ values.now) }
    {
        for value in values {
            self.push(value.copy(alloc)?)?;
        }
        Ok(())
    }

    pub fn as_slice(&self) -> &[Value]
        ensures { result.now ≡ self.now }
    {
        self.values.as_slice()
    }

    pub fn len(&self) -> usize
        ensures { result ≡ length self.now }
    {
        self.as_slice().len()
    }

    /// The value in a column, and NULL past the end.
    pub fn lend(&self, place: usize) -> Lent<'_>
        ensures { owned result ≡ column self.now place }
    {
        lend_column(self.as_slice(), place)
    }
}

/// A row of copies of these values.
pub fn copy_row(alloc: Global, values: &[Value]) -> Result<Row, AllocError>
    ensures { IfOk result (λ r. r ≡ values.now) }
{
    let mut row = Row::with_capacity(alloc, values.len())?;
    row.push_copies(alloc, values)?;
    Ok(row)
}

impl PartialEq for Row {
    ghost eq = { same_row };

    ghost laws = { partial_equiv_from_equiv same_row-equiv };

    #[tactic(auto, unfolding(crate::specs::Order::same_row))]
    fn eq(&self, other: &Row) -> bool {
        self.as_slice().cmp(other.as_slice()).is_eq()
    }
}

impl Eq for Row {
    ghost laws = { same_row-equiv };
}

impl Hash for Row {
    ghost hash_input = { fed.slice ⟦<Value as Hash>⟧.hash_input };

    ghost respects_eq = { λ x y e. ap (fed.slice ⟦<Value as Hash>⟧.hash_input) (same_row-same x y e) };

    fn hash<H: Hasher>(&self, state: &mut H) {
        self.as_slice().hash(state);
    }
}
