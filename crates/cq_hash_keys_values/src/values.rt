//! The values of one column of keys, each once, with a number.
//!
//! `add` puts in what is new of a vector, and tells the number of each of its values; `find` puts nothing in; `lend`
//! reads the value of a number. There is a loop for each form of vector that is read as a slice, and one that asks
//! place by place for the others. A value that is known costs one look-up, and one that is new is copied.
ghost use Rattle.std.specs.Prelude.{IfOk, None, OnErr, OnOk, [], length, map, replicate, slice_index_or, ◌<◌, ◌≡◌};
ghost use Rattle.cq_values.specs.Lent.{owned};
ghost use Rattle.cq_values.specs.declared.value.Value.TheVariants.{Null};
ghost use Rattle.cq_hash_keys_values.specs.Met.{IsNumberIn, TakesFront};
ghost use Rattle.cq_hash_keys_values.specs.Values.{Meets, TakesIn, Tells, place_in, same_value};

use crate::dictionary::Dictionary;
use crate::kept::Kept;
use crate::kind::Kind;
use cq_values::Lent;
use cq_vectors::{Form, Vector};
use std::alloc::{AllocError, Global};
use std::marker::Model;

/// Values, each once, as they were first met. The number of each is its place among them.
#[derive(Drop)]
pub struct Values {
    met: Kept,
    pub(crate) ways: Dictionary,
}

impl Model for Values {
    ghost use Rattle.std.specs.Prelude.{List};
    ghost use Rattle.cq_values.specs.declared.value.Value.{Value as Datum};
    ghost use Rattle.cq_hash_keys_values.specs.Kept.{kept_values};
    ghost use Rattle.cq_hash_keys_values.specs.Values.{Finds};

    ghost Value = { List Datum };

    ghost view = { λ v. kept_values v.met };

    ghost invariant = { λ v. Finds v.ways (kept_values v.met) };
}

impl Values {
    /// Takes no memory.
    pub fn new(alloc: Global) -> Values
        ensures { result ≡ [] }
    {
        Values {
            met: Kept::new(alloc),
            ways: Dictionary::new(alloc),
        }
    }

    pub fn len(&self) -> usize
        ensures { result ≡ length self.now }
    {
        self.met.len()
    }

    /// The value of a number.
    pub fn lend(&self, number: usize) -> Lent<'_>
        requires { number < length self.now }
        ensures { owned result ≡ slice_index_or self.now number Null }
    {
        self.met.lend(number)
    }

    /// Puts in what is new of a column, and tells the number of each value.
    pub fn add(
        &mut self,
        alloc: Global,
        column: &Vector<'_>,
        numbers: &mut Vec<usize>,
    ) -> Result<(), AllocError>
        ensures values { OnOk result (TakesIn self.old column.now self.new) }
        ensures numbers { OnOk result (Tells self.new column.now numbers.new.items) }
        ensures front { TakesFront same_value self.old column.now self.new }
    {
        if let Some(values) = column.whole_numbers() {
            return self.add_whole(alloc, column, Kind::Number, values, numbers);
        }
        match column.form() {
            Form::Constant(value, len) => self.add_constant(alloc, value, *len, numbers),
            Form::Narrow(_) | Form::NarrowDays(_) | Form::Days(_) | Form::LentDays(_) => {
                self.add_widened(alloc, column, numbers)
            }
            Form::Codes(texts) => self.add_coded(alloc, column, texts, numbers),
            _ => self.add_each(alloc, column, numbers),
        }
    }

    /// The number of each value of a column, None where it was never met.
    pub fn find(
        &self,
        column: &Vector<'_>,
        numbers: &mut Vec<Option<usize>>,
    ) -> Result<(), AllocError>
        ensures { OnOk result (numbers.new.items ≡ map (place_in self.now) column.now) }
    {
        if let Some(values) = column.whole_numbers() {
            return self.find_whole(Kind::Number, values, numbers);
        }
        match column.form() {
            Form::Narrow(_) | Form::NarrowDays(_) | Form::Days(_) | Form::LentDays(_) => {
                self.find_widened(column, numbers)
            }
            Form::Codes(texts) => self.find_coded(column, texts, numbers),
            _ => self.find_each(column, numbers),
        }
    }

    fn add_constant(
        &mut self,
        alloc: Global,
        value: &Lent<'_>,
        len: usize,
        numbers: &mut Vec<usize>,
    ) -> Result<(), AllocError>
        ensures values { OnOk result (TakesIn self.old (replicate len (owned value.now)) self.new) }
        ensures numbers { OnOk result (Tells self.new (replicate len (owned value.now)) numbers.new.items) }
        ensures front { TakesFront same_value self.old (replicate len (owned value.now)) self.new }
    {
        numbers.clear();
        if len == 0 {
            return Ok(());
        }
        numbers.reserve(len)?;
        let number = self.number(alloc, value)?;
        numbers.resize(len, number)?;
        Ok(())
    }

    pub(crate) fn add_each(
        &mut self,
        alloc: Global,
        column: &Vector<'_>,
        numbers: &mut Vec<usize>,
    ) -> Result<(), AllocError>
        ensures values { OnOk result (TakesIn self.old column.now self.new) }
        ensures numbers { OnOk result (Tells self.new column.now numbers.new.items) }
        ensures front { TakesFront same_value self.old column.now self.new }
    {
        numbers.clear();
        numbers.reserve(column.len())?;
        for place in 0..column.len() {
            let number = self.number(alloc, &column.lend(place))?;
            numbers.push_reserved(number);
        }
        Ok(())
    }

    pub(crate) fn find_each(
        &self,
        column: &Vector<'_>,
        numbers: &mut Vec<Option<usize>>,
    ) -> Result<(), AllocError>
        ensures { OnOk result (numbers.new.items ≡ map (place_in self.now) column.now) }
    {
        numbers.clear();
        numbers.reserve(column.len())?;
        for place in 0..column.len() {
            numbers.push_reserved(self.place(&column.lend(place)));
        }
        Ok(())
    }

    pub(crate) fn place(&self, value: &Lent<'_>) -> Option<usize>
        ensures { result ≡ place_in self.now (owned value.now) }
    {
        self.ways.get(value)
    }

    /// The number of a value, which is put in where it is new.
    pub(crate) fn number(&mut self, alloc: Global, value: &Lent<'_>) -> Result<usize, AllocError>
        ensures met { OnOk result (Meets self.old (owned value.now) self.new) }
        ensures number { IfOk result (IsNumberIn Null self.new (owned value.now)) }
        ensures err { OnErr result (self.new ≡ self.old) }
    {
        match self.ways.get(value) {
            Some(number) => Ok(number),
            None => self.new_number(alloc, value),
        }
    }

    /// The number of a value that was not met, which is put in.
    #[inline(never)]
    pub(crate) fn new_number(
        &mut self,
        alloc: Global,
        value: &Lent<'_>,
    ) -> Result<usize, AllocError>
        requires { place_in self.old (owned value.now) ≡ None }
        ensures met { OnOk result (Meets self.old (owned value.now) self.new) }
        ensures number { IfOk result (IsNumberIn Null self.new (owned value.now)) }
        ensures err { OnErr result (self.new ≡ self.old) }
    {
        let number = self.met.len();
        self.met.push(alloc, value)?;
        match self.ways.put(alloc, value, number) {
            Ok(()) => Ok(number),
            Err(fault) => {
                self.met.truncate(number);
                Err(fault)
            }
        }
    }
}
