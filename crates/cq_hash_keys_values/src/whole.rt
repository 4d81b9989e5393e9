//! The numbers of values that stand as whole numbers of 64 bits, by loops over slices.
ghost use Rattle.std.specs.Prelude.{IfOk, OnErr, OnOk, length, map, slice_index_or, ◌≡◌, ◌≤◌};
ghost use Rattle.cq_values.specs.declared.value.Value.TheVariants.{Null};
ghost use Rattle.cq_hash_keys_values.specs.Met.{IsNumberIn, TakesFront};
ghost use Rattle.cq_hash_keys_values.specs.Values.{Meets, TakesIn, Tells, place_in, same_value};
ghost use Rattle.cq_hash_keys_values.specs.Whole.{IsWholeRun, whole_value, whole_values};

use crate::kind::Kind;
use crate::values::Values;
use crate::widened::widen;
use cq_vectors::Vector;
use std::alloc::{AllocError, Global};

impl Values {
    /// Takes in a column whose values can be written as whole numbers, unless one is NULL.
    pub(crate) fn add_widened(
        &mut self,
        alloc: Global,
        column: &Vector<'_>,
        numbers: &mut Vec<usize>,
    ) -> Result<(), AllocError>
        ensures values { OnOk result (TakesIn self.old column.now self.new) }
        ensures numbers { OnOk result (Tells self.new column.now numbers.new.items) }
        ensures front { TakesFront same_value self.old column.now self.new }
    {
        let mut room = [0; 1024];
        match widen(column, &mut room) {
            Some(kind) => self.add_whole(alloc, column, kind, &room[..column.len()], numbers),
            None => self.add_each(alloc, column, numbers),
        }
    }

    pub(crate) fn find_widened(
        &self,
        column: &Vector<'_>,
        numbers: &mut Vec<Option<usize>>,
    ) -> Result<(), AllocError>
        ensures { OnOk result (numbers.new.items ≡ map (place_in self.now) column.now) }
    {
        let mut room = [0; 1024];
        match widen(column, &mut room) {
            Some(kind) => self.find_whole(kind, &room[..column.len()], numbers),
            None => self.find_each(column, numbers),
        }
    }

    /// Takes in a column whose values are these whole numbers.
    pub(crate) fn add_whole(
        &mut self,
        alloc: Global,
        column: &Vector<'_>,
        kind: Kind,
        values: &[i64],
        numbers: &mut Vec<usize>,
    ) -> Result<(), AllocError>
        requires { column.now ≡ whole_values kind values.now }
        ensures values { OnOk result (TakesIn self.old (whole_values kind values.now) self.new) }
        ensures numbers { OnOk result (Tells self.new (whole_values kind values.now) numbers.new.items) }
        ensures front { TakesFront same_value self.old (whole_values kind values.now) self.new }
    {
        numbers.resize(values.len(), 0)?;
        self.number_whole(alloc, column, kind, values, numbers.as_mut_slice())
    }

    /// Puts in what is new of whole numbers, and tells the number of each.
    fn number_whole(
        &mut self,
        alloc: Global,
        column: &Vector<'_>,
        kind: Kind,
        values: &[i64],
        numbers: &mut [usize],
    ) -> Result<(), AllocError>
        requires column { column.now ≡ whole_values kind values.now }
        requires same { length numbers.old ≡ length values.now }
        ensures values { OnOk result (TakesIn self.old (whole_values kind values.now) self.new) }
        ensures numbers { OnOk result (Tells self.new (whole_values kind values.now) numbers.new) }
        ensures front { TakesFront same_value self.old (whole_values kind values.now) self.new }
        ensures same { length numbers.new ≡ length numbers.old }
    {
        let mut place = 0;
        while place < values.len() {
            numbers[place] = self.whole(alloc, column, place, kind, values[place])?;
            place = self.run(kind, values, place + 1, numbers);
        }
        Ok(())
    }

    /// Tells the numbers of these from a place on, up to the first that has none at hand. Gives its place.
    fn run(&self, kind: Kind, values: &[i64], from: usize, numbers: &mut [usize]) -> usize
        requires from { from ≤ length values.now }
        requires same { length numbers.old ≡ length values.now }
        ensures from { from ≤ result }
        ensures within { result ≤ length values.now }
        ensures run { IsWholeRun (place_in self.now) kind values.now from result numbers.old numbers.new }
    {
        self.ways.run(kind, values, from, numbers)
    }

    pub(crate) fn find_whole(
        &self,
        kind: Kind,
        values: &[i64],
        numbers: &mut Vec<Option<usize>>,
    ) -> Result<(), AllocError>
        ensures { OnOk result (numbers.new.items ≡ map (place_in self.now) (whole_values kind values.now)) }
    {
        numbers.resize(values.len(), None)?;
        self.find_all(kind, values, numbers.as_mut_slice());
        Ok(())
    }

    /// Looks up each of these whole numbers.
    fn find_all(&self, kind: Kind, values: &[i64], found: &mut [Option<usize>])
        requires { length found.old ≡ length values.now }
        ensures same { length found.new ≡ length found.old }
        ensures found { found.new ≡ map (place_in self.now) (whole_values kind values.now) }
    {
        self.ways.find(kind, values, found);
    }

    /// The number of the value at a place, which stands as a whole number. It is put in where it is new.
    #[inline(always)]
    fn whole(
        &mut self,
        alloc: Global,
        column: &Vector<'_>,
        place: usize,
        kind: Kind,
        value: i64,
    ) -> Result<usize, AllocError>
        requires { slice_index_or column.now place Null ≡ whole_value kind value }
        ensures met { OnOk result (Meets self.old (whole_value kind value) self.new) }
        ensures number { IfOk result (IsNumberIn Null self.new (whole_value kind value)) }
        ensures err { OnErr result (self.new ≡ self.old) }
    {
        match self.ways.whole(kind, value) {
            Some(number) => Ok(number),
            None => self.new_number(alloc, &column.lend(place)),
        }
    }
}
