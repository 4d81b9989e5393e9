//! Tables of keys.
//!
//! A table begins empty, for keys of a width. `add` puts in what is new of up to 1,024 keys, given column by column,
//! and tells the number of each; `find` tells numbers and puts nothing in. Both go through one column after the other:
//! the values of the first are numbered, then the pairs of those numbers and the values of the next, and so on. A key is
//! kept as these numbers and never as a row; `keys` makes rows of them, and `column` a vector of one column. A key that
//! is known costs a look-up a value and one a pair. After an `Err` of `add` some keys may be in, each with its number.
ghost use Rattle.std.specs.List.{AllByRecursion};
ghost use Rattle.std.specs.Prelude.{IfOk, None, OnOk, Some, [], drop, if◌then◌else◌, length, replicate, take, ◌+◌, ◌<◌, ◌≡◌, ◌≤◌};
ghost use Rattle.cq_values.specs.Lent.{owned};
ghost use Rattle.cq_values.specs.Value.{column as column_at};
ghost use Rattle.cq_vectors.specs.Gathered.{column_of};
ghost use Rattle.cq_hash_keys.specs.Keys.{AddsKeys, AreKeys, AreNumbers, AreNumbersIn, AreWithin, HasLength, HasValues, key_at, key_rows, places_of, rows_in, values_of};
ghost use Rattle.cq_hash_keys.specs.Stages.{AreNumbersOn, rows_on};

use crate::stage::Stage;
use crate::stages::{find_on, go_on, lend_value, make_ready};
use cq_hash_keys_values::Values;
use cq_values::{Lent, Row};
use cq_vectors::{Form, Vector};
use std::alloc::{AllocError, Global};
use std::marker::Model;

/// Keys, each once, as they were first met, and the number of each: its place among them.
#[derive(Drop)]
pub struct KeyTable {
    width: usize,
    /// Whether the key of no values was met.
    is_met: bool,
    first: Values,
    /// A stage for each column behind the first, or none yet.
    stages: Vec<Stage>,
    firsts: Vec<usize>,
    seconds: Vec<usize>,
}

impl Model for KeyTable {
    ghost use Rattle.cq_hash_keys.specs.Keys.{StoredKeys};
    ghost use Rattle.cq_hash_keys.specs.Table.{IsKeyTable, keys_in};

    ghost Value = { StoredKeys };

    ghost view = { λ t. record { width = t.width; keys = keys_in t.width t.is_met t.first t.stages.items } };

    ghost invariant = { λ t. IsKeyTable t.width t.first t.stages.items };
}

impl KeyTable {
    /// No keys. Takes no memory.
    pub fn new(alloc: Global, width: usize) -> KeyTable
        ensures { result ≡ record { width = width; keys = [] } }
    {
        KeyTable {
            width,
            is_met: false,
            first: Values::new(alloc),
            stages: Vec::new(alloc),
            firsts: Vec::new(alloc),
            seconds: Vec::new(alloc),
        }
    }

    /// Puts in what is new of the keys at `len` places of these columns, and tells the number of each.
    pub fn add(
        &mut self,
        alloc: Global,
        columns: &[&Vector<'_>],
        len: usize,
        numbers: &mut Vec<usize>,
    ) -> Result<(), AllocError>
        requires width { length columns.now ≡ self.old.width }
        requires long { AllByRecursion (HasLength len) (values_of columns.now) }
        requires few { len ≤ 1024 }
        ensures keys { OnOk result (AddsKeys self.old.keys (rows_in len columns.now) self.new.keys) }
        ensures numbers { OnOk result (AreNumbersIn self.new.keys len columns.now numbers.new.items) }
        ensures within { OnOk result (AreWithin self.new.keys numbers.new.items) }
        ensures width { self.new.width ≡ self.old.width }
    {
        match columns.split_first() {
            None => self.add_empty(len, numbers),
            Some((first, others)) => self.add_columns(alloc, first, others, numbers),
        }
    }

    /// The number of the key at each place, None where it was never met.
    pub fn find(
        &self,
        alloc: Global,
        columns: &[&Vector<'_>],
        len: usize,
        numbers: &mut Vec<Option<usize>>,
    ) -> Result<(), AllocError>
        requires width { length columns.now ≡ self.now.width }
        requires long { AllByRecursion (HasLength len) (values_of columns.now) }
        requires few { len ≤ 1024 }
        ensures { OnOk result (numbers.new.items ≡ places_of self.now.keys (rows_in len columns.now)) }
    {
        match columns.split_first() {
            None => self.find_empty(len, numbers),
            Some((first, others)) => self.find_columns(alloc, first, others, numbers),
        }
    }

    pub fn len(&self) -> usize
        ensures { result ≡ length self.now.keys }
    {
        if self.width == 0 {
            return if self.is_met { 1 } else { 0 };
        }
        match self.stages.split_last() {
            Some((stage, _)) => stage.pairs.len(),
            None => self.first.len(),
        }
    }

    /// How many values each key has.
    pub fn width(&self) -> usize
        ensures width { result ≡ self.now.width }
        ensures wide { AllByRecursion (HasValues self.now.width) self.now.keys }
    {
        self.width
    }

    /// The value of a column of the key of a number.
    pub fn lend(&self, key: usize, column: usize) -> Lent<'_>
        requires key { key < length self.now.keys }
        requires column { column < self.now.width }
        ensures { owned result ≡ column_at (key_at self.now.keys key) column }
    {
        lend_value(&self.first, self.stages.as_slice(), key, column)
    }

    /// The keys by their numbers, as rows.
    pub fn keys(&self, alloc: Global) -> Result<Vec<Row>, AllocError>
        ensures keys { IfOk result (λ rows. rows.items ≡ self.now.keys) }
        ensures once { AreKeys self.now.width self.now.keys }
    {
        let _width = self.width;
        let len = self.len();
        let mut rows = Vec::new(alloc);
        rows.reserve(len)?;
        for key in 0..len {
            rows.push_reserved(self.key(alloc, key)?);
        }
        Ok(rows)
    }

    /// The keys by their numbers, as rows, for good.
    pub fn into_keys(self, alloc: Global) -> Result<Vec<Row>, AllocError>
        ensures keys { IfOk result (λ rows. rows.items ≡ self.keys) }
        ensures once { AreKeys self.width self.keys }
    {
        self.keys(alloc)
    }

    /// The values of a column of up to 1,024 keys, from a number on.
    pub fn column(
        &self,
        alloc: Global,
        column: usize,
        start: usize,
        len: usize,
    ) -> Result<Vector<'_>, AllocError>
        requires column { column < self.now.width }
        requires keys { start + len ≤ length self.now.keys }
        requires few { len ≤ 1024 }
        ensures { IfOk result (λ vector. vector ≡ column_of (take len (drop start self.now.keys)) column) }
    {
        let _count = self.len();
        let mut values = Vec::new(alloc);
        values.reserve(len)?;
        for place in 0..len {
            values.push_reserved(self.lend(start + place, column));
        }
        Ok(Vector::new(Form::Values(values)))
    }

    /// The key of a number, as a row.
    fn key(&self, alloc: Global, key: usize) -> Result<Row, AllocError>
        requires { key < length self.now.keys }
        ensures { IfOk result (λ row. row ≡ key_at self.now.keys key) }
    {
        let mut row = Row::with_capacity(alloc, self.width)?;
        for column in 0..self.width {
            row.push(self.lend(key, column).to_value(alloc)?)?;
        }
        Ok(row)
    }

    /// The key of no values is met where there is a place.
    fn add_empty(&mut self, len: usize, numbers: &mut Vec<usize>) -> Result<(), AllocError>
        requires { self.old.width ≡ 0 }
        ensures keys { OnOk result (AddsKeys self.old.keys (key_rows len []) self.new.keys) }
        ensures numbers { OnOk result (AreNumbers self.new.keys len [] numbers.new.items) }
        ensures within { OnOk result (AreWithin self.new.keys numbers.new.items) }
        ensures width { self.new.width ≡ self.old.width }
    {
        let _width = self.width;
        lay_zeros(numbers, len)?;
        if 0 < len {
            self.is_met = true;
        }
        Ok(())
    }

    fn find_empty(&self, len: usize, numbers: &mut Vec<Option<usize>>) -> Result<(), AllocError>
        requires { self.now.width ≡ 0 }
        ensures { OnOk result (numbers.new.items ≡ places_of self.now.keys (key_rows len [])) }
    {
        let found = empty_place(self.is_met);
        numbers.clear();
        numbers.resize(len, found)?;
        Ok(())
    }

    /// Puts in what is new of keys of these columns, and tells their numbers.
    fn add_columns(
        &mut self,
        alloc: Global,
        first: &Vector<'_>,
        others: &[&Vector<'_>],
        numbers: &mut Vec<usize>,
    ) -> Result<(), AllocError>
        requires width { length others.now + 1 ≡ self.old.width }
        requires long { AllByRecursion (HasLength (length first.now)) (values_of others.now) }
        ensures keys { OnOk result (AddsKeys self.old.keys (rows_on first.now others.now) self.new.keys) }
        ensures numbers { OnOk result (AreNumbersOn self.new.keys first.now others.now numbers.new.items) }
        ensures width { self.new.width ≡ self.old.width }
    {
        make_ready(alloc, &mut self.stages, others.len())?;
        self.first.add(alloc, first, numbers)?;
        let count = self.first.len();
        let stages = self.stages.as_mut_slice();
        go_on(
            alloc,
            stages,
            others,
            count,
            &mut self.firsts,
            &mut self.seconds,
            numbers,
        )
    }

    /// The numbers of keys of these columns, None where one was never met.
    fn find_columns(
        &self,
        alloc: Global,
        first: &Vector<'_>,
        others: &[&Vector<'_>],
        numbers: &mut Vec<Option<usize>>,
    ) -> Result<(), AllocError>
        requires width { length others.now + 1 ≡ self.now.width }
        requires long { AllByRecursion (HasLength (length first.now)) (values_of others.now) }
        ensures { OnOk result (numbers.new.items ≡ places_of self.now.keys (rows_on first.now others.now)) }
    {
        if self.stages.len() != others.len() {
            numbers.clear();
            numbers.resize(first.len(), None)?;
            return Ok(());
        }
        self.first.find(first, numbers)?;
        let (mut firsts, mut seconds) = (Vec::new(alloc), Vec::new(alloc));
        find_on(
            self.stages.as_slice(),
            others,
            &mut firsts,
            &mut seconds,
            numbers,
        )
    }
}

/// So many zeros in place of what stood in a list. One that is as long already is not filled number by number.
fn lay_zeros(numbers: &mut Vec<usize>, len: usize) -> Result<(), AllocError>
    ensures { OnOk result (numbers.new.items ≡ replicate len 0) }
{
    if numbers.len() == len {
        numbers.as_mut_slice().fill(0);
        return Ok(());
    }
    numbers.clear();
    numbers.resize(len, 0)
}

/// The number of the key of no values, None where it was never met.
fn empty_place(is_met: bool) -> Option<usize>
    ensures { result ≡ (if is_met then Some 0 else None) }
{
    if is_met { Some(0) } else { None }
}
