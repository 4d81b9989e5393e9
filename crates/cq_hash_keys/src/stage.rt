//! What is kept of a further column of keys.
ghost use Rattle.std.specs.Prelude.{IfOk, OnOk, [], length, ◌≡◌};
ghost use Rattle.cq_hash_keys.specs.Stages.{AddsColumn, AddsPart, found_behind};

use crate::pairs::Pairs;
use cq_hash_keys_values::Values;
use cq_vectors::Vector;
use std::alloc::{AllocError, Global};

/// The values of the column, and which of them go on which keys of the columns before: pairs of the key's number and
/// the value's. The number of a pair is that of a key of one column more.
#[derive(Drop)]
pub(crate) struct Stage {
    pub(crate) values: Values,
    pub(crate) pairs: Pairs,
}

impl Stage {
    pub(crate) fn new(alloc: Global) -> Result<Stage, AllocError>
        ensures values { IfOk result (λ stage. stage.values ≡ []) }
        ensures pairs { IfOk result (λ stage. stage.pairs ≡ []) }
    {
        Ok(Stage {
            values: Values::new(alloc),
            pairs: Pairs::new(alloc)?,
        })
    }

    /// Takes in a column, of keys that have these numbers without it and are so many. Tells the numbers with it.
    pub(crate) fn add(
        &mut self,
        alloc: Global,
        column: &Vector<'_>,
        count: usize,
        firsts: &[usize],
        seconds: &mut Vec<usize>,
        numbers: &mut Vec<usize>,
    ) -> Result<(), AllocError>
        requires { length firsts.now ≡ length column.now }
        ensures ok { OnOk result (AddsColumn self.old column.now firsts.now self.new numbers.new.items) }
        ensures part { AddsPart self.old column.now firsts.now self.new }
    {
        self.values.add(alloc, column, seconds)?;
        let values = self.values.len();
        self.pairs.fit(alloc, count, values)?;
        self.pairs.add(firsts, seconds.as_slice(), numbers)
    }

    /// The numbers of keys with a column more, None where one was never met.
    pub(crate) fn find(
        &self,
        column: &Vector<'_>,
        firsts: &[Option<usize>],
        seconds: &mut Vec<Option<usize>>,
        numbers: &mut Vec<Option<usize>>,
    ) -> Result<(), AllocError>
        requires { length firsts.now ≡ length column.now }
        ensures { OnOk result (numbers.new.items ≡ found_behind self.now firsts.now column.now) }
    {
        self.values.find(column, seconds)?;
        self.pairs.find(firsts, seconds.as_slice(), numbers)
    }
}
