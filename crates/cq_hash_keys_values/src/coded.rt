//! The numbers of texts that are lent by the codes of their entries.
//!
//! Each entry is looked up once a vector, and then each place costs one read. A slot stands for NULL, and one for each
//! entry; an entry is put in when the first place that has its code is met, and so none that no place has.
ghost use Rattle.std.specs.List.{All};
ghost use Rattle.std.specs.Prelude.{IfOk, None, OnErr, OnOk, if◌then◌else◌, length, map, slice_index_or, ◌+◌, ◌<◌, ◌≡◌, ◌≤◌};
ghost use Rattle.cq_values.specs.Lent.{owned};
ghost use Rattle.cq_values.specs.declared.value.Value.TheVariants.{Null};
ghost use Rattle.cq_hash_keys_values.specs.Coded.{AreLookedUp, AreNoted, AreTexts, HaveSlots, IsNotedRun, TellsTexts, noted_in, slot_for, slot_value};
ghost use Rattle.cq_vectors_stored.specs.LentColumns.{entries_at};
ghost use Rattle.cq_vectors_stored.specs.Offsets.{offsets_in};
ghost use Rattle.cq_hash_keys_values.specs.Met.{IsNumberIn, IsRun, TakesFront};
ghost use Rattle.cq_hash_keys_values.specs.Values.{Meets, TakesIn, Tells, place_in, same_value};

use crate::values::Values;
use cq_values::Lent;
use cq_vectors::Vector;
use cq_vectors_masks::Plane;
use cq_vectors_stored::{Codes, Offsets, TextRun};
use std::alloc::{AllocError, Global};

/// With more entries than these, texts are looked up place by place.
const MOST: usize = 1_024;

impl Values {
    /// Takes in a column of texts by codes.
    pub(crate) fn add_coded(
        &mut self,
        alloc: Global,
        column: &Vector<'_>,
        texts: &Codes<'_>,
        numbers: &mut Vec<usize>,
    ) -> Result<(), AllocError>
        requires { texts.now ≡ column.now }
        ensures values { OnOk result (TakesIn self.old column.now self.new) }
        ensures numbers { OnOk result (Tells self.new column.now numbers.new.items) }
        ensures front { TakesFront same_value self.old column.now self.new }
    {
        let (entries, codes) = texts.parts();
        if entries.len() > MOST {
            return self.add_each(alloc, column, numbers);
        }
        numbers.resize(codes.len(), 0)?;
        self.number_coded(
            alloc,
            entries,
            &codes,
            texts.nulls(),
            numbers.as_mut_slice(),
        )
    }

    /// Puts in what is new of texts by codes, and tells the number of each.
    fn number_coded(
        &mut self,
        alloc: Global,
        entries: &TextRun,
        codes: &Offsets<'_>,
        nulls: &Plane,
        numbers: &mut [usize],
    ) -> Result<(), AllocError>
        requires texts { AreTexts entries.now (offsets_in codes.now) nulls.now }
        requires few { length entries.now ≤ 1024 }
        requires same { length numbers.old ≡ length (offsets_in codes.now) }
        ensures values { OnOk result (TakesIn self.old (entries_at entries.now (offsets_in codes.now) nulls.now) self.new) }
        ensures numbers { OnOk result (TellsTexts entries.now (offsets_in codes.now) nulls.now self.new numbers.new) }
        ensures front { TakesFront same_value self.old (entries_at entries.now (offsets_in codes.now) nulls.now) self.new }
        ensures same { length numbers.new ≡ length numbers.old }
    {
        let mut slots = [0; 1025];
        let mut place = 0;
        while place < codes.len() {
            let slot = slot_of(nulls.get(place), codes.at(place));
            numbers[place] = self.note(alloc, entries, slot, &mut slots)?;
            place = noted_run(codes, nulls, &slots, place + 1, numbers);
        }
        Ok(())
    }

    /// Looks up the value of a slot, and notes its number.
    #[inline(never)]
    fn note(
        &mut self,
        alloc: Global,
        entries: &TextRun,
        slot: usize,
        slots: &mut [usize],
    ) -> Result<usize, AllocError>
        requires slot { slot ≤ length entries.now }
        requires there { slot < length slots.old }
        requires noted { AreNoted entries.now self.old slots.old }
        ensures met { OnOk result (Meets self.old (slot_value entries.now slot) self.new) }
        ensures number { IfOk result (IsNumberIn Null self.new (slot_value entries.now slot)) }
        ensures err { OnErr result (self.new ≡ self.old) }
        ensures noted { OnOk result (AreNoted entries.now self.new slots.new) }
        ensures same { length slots.new ≡ length slots.old }
    {
        let number = self.number(alloc, &lend_slot(entries, slot))?;
        let _count = self.len();
        slots[slot] = number + 1;
        Ok(number)
    }

    /// Looks up a column of texts by codes.
    pub(crate) fn find_coded(
        &self,
        column: &Vector<'_>,
        texts: &Codes<'_>,
        numbers: &mut Vec<Option<usize>>,
    ) -> Result<(), AllocError>
        requires { texts.now ≡ column.now }
        ensures { OnOk result (numbers.new.items ≡ map (place_in self.now) column.now) }
    {
        let (entries, codes) = texts.parts();
        if entries.len() > codes.len() {
            return self.find_each(column, numbers);
        }
        let mut found = [None; 1025];
        self.find_slots(entries, &mut found);
        let nulls = texts.nulls();
        numbers.clear();
        numbers.reserve(codes.len())?;
        for place in 0..codes.len() {
            let slot = slot_of(nulls.get(place), codes.at(place));
            numbers.push_reserved(found[slot]);
        }
        Ok(())
    }

    /// Looks up the value of each slot.
    fn find_slots(&self, entries: &TextRun, found: &mut [Option<usize>])
        requires { length entries.now < length found.old }
        ensures same { length found.new ≡ length found.old }
        ensures looked { AreLookedUp entries.now self.now found.new }
    {
        for slot in 0..entries.len() + 1 {
            found[slot] = self.place(&lend_slot(entries, slot));
        }
    }
}

/// Tells the numbers that the slots of texts have, from a place on up to the first slot that has none. Gives its place.
fn noted_run(
    codes: &Offsets<'_>,
    nulls: &Plane,
    slots: &[usize],
    from: usize,
    numbers: &mut [usize],
) -> usize
    requires slots { HaveSlots (length slots.now) (offsets_in codes.now) nulls.now }
    requires from { from ≤ length (offsets_in codes.now) }
    requires same { length numbers.old ≡ length (offsets_in codes.now) }
    ensures from { from ≤ result }
    ensures within { result ≤ length (offsets_in codes.now) }
    ensures run { IsNotedRun slots.now (offsets_in codes.now) nulls.now from result numbers.old numbers.new }
{
    if let Offsets::One(bytes) = codes {
        if nulls.is_clear() {
            return run_of_bytes(*bytes, slots, from, numbers);
        }
    }
    run_of_codes(codes, nulls, slots, from, numbers)
}

/// The same of codes of 8 bits, where NULL stands nowhere.
fn run_of_bytes(codes: &[u8], slots: &[usize], from: usize, numbers: &mut [usize]) -> usize
    requires slots { All (λ code. code + 1 < length slots.now) codes.now }
    requires from { from ≤ length codes.now }
    requires same { length numbers.old ≡ length codes.now }
    ensures from { from ≤ result }
    ensures within { result ≤ length codes.now }
    ensures run { IsRun 0 (noted_in slots.now) (map (λ code. code + 1) codes.now) from result numbers.old numbers.new }
{
    for place in from..codes.len() {
        match slots[usize::from(codes[place]) + 1] {
            0 => return place,
            noted => numbers[place] = noted - 1,
        }
    }
    codes.len()
}

fn run_of_codes(
    codes: &Offsets<'_>,
    nulls: &Plane,
    slots: &[usize],
    from: usize,
    numbers: &mut [usize],
) -> usize
    requires slots { HaveSlots (length slots.now) (offsets_in codes.now) nulls.now }
    requires from { from ≤ length (offsets_in codes.now) }
    requires same { length numbers.old ≡ length (offsets_in codes.now) }
    ensures from { from ≤ result }
    ensures within { result ≤ length (offsets_in codes.now) }
    ensures run { IsNotedRun slots.now (offsets_in codes.now) nulls.now from result numbers.old numbers.new }
{
    for place in from..codes.len() {
        let slot = slot_of(nulls.get(place), codes.at(place));
        match slots[slot] {
            0 => return place,
            noted => numbers[place] = noted - 1,
        }
    }
    codes.len()
}

/// The value of a slot.
fn lend_slot(entries: &TextRun, slot: usize) -> Lent<'_>
    requires { slot ≤ length entries.now }
    ensures { owned result ≡ slot_value entries.now slot }
{
    if slot == 0 {
        Lent::Null
    } else {
        Lent::Text(entries.get(slot - 1))
    }
}

/// The slot of a code, and the first one where NULL stands.
#[inline(always)]
fn slot_of(is_null: bool, code: u32) -> usize
    ensures { result ≡ slot_for code is_null }
{
    if is_null { 0 } else { code as usize + 1 }
}
