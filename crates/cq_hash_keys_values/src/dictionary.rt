//! The numbers of a column's values.
ghost use Rattle.std.specs.Bool.{OnFalse};
ghost use Rattle.std.specs.Prelude.{IfSome, IsSome, None, OnErr, OnOk, [], length, map, true, ◌≡◌, ◌≤◌, ◌↔◌};
ghost use Rattle.cq_values.specs.Lent.{owned};
ghost use Rattle.cq_values.specs.declared.value.Value.{Value as Datum};
ghost use Rattle.cq_values.specs.declared.value.Value.TheVariants.{Day as DayOf, Null, Number, Text as TextOf};
ghost use Rattle.cq_hash_keys_values.specs.Dictionary.{Agree, PutsAt, fits_64_bits, number_in};
ghost use Rattle.cq_hash_keys_values.specs.Whole.{IsWholeRun, whole_value, whole_values, window_code, window_of};

use crate::kind::Kind;
use crate::texts::TextNumbers;
use crate::window::{Window, code_at};
use cq_values::Lent;
use indexmap::IndexMap;
use std::alloc::{AllocError, Global};

/// A number for each value that was put in, found by the kind of the value.
#[derive(Drop)]
pub(crate) struct Dictionary {
    numbers: Window,
    wide: IndexMap<i128, usize>,
    days: Window,
    texts: TextNumbers,
    null: Option<usize>,
}

impl Dictionary {
    /// No values. Takes no memory.
    pub(crate) fn new(alloc: Global) -> Dictionary
        ensures { (value : Datum) → number_in result value ≡ None }
    {
        Dictionary {
            numbers: Window::new(alloc),
            wide: IndexMap::new(alloc),
            days: Window::new(alloc),
            texts: TextNumbers::new(alloc),
            null: None,
        }
    }

    pub(crate) fn get(&self, value: &Lent<'_>) -> Option<usize>
        ensures { result ≡ number_in self.now (owned value.now) }
    {
        match value {
            Lent::Number(number) => self.number(*number),
            Lent::Day(day) => self.days.get(i64::from(day.number())),
            Lent::Text(text) => self.texts.get(*text),
            Lent::Null => self.null,
        }
    }

    fn number(&self, number: i128) -> Option<usize>
        ensures { result ≡ number_in self.now (Number number) }
    {
        match in_64_bits(number) {
            Some(number) => self.numbers.get(number),
            None => self.wide.get(&number).copied(),
        }
    }

    /// The number of a value that stands as a whole number.
    #[inline(always)]
    pub(crate) fn whole(&self, kind: Kind, number: i64) -> Option<usize>
        ensures { result ≡ number_in self.now (whole_value kind number) }
    {
        match kind {
            Kind::Number => self.numbers.get(number),
            Kind::Day => self.days.get(number),
        }
    }

    /// The window that has the numbers of values of a kind.
    fn window(&self, kind: Kind) -> &Window
        ensures { result.now ≡ window_of self.now kind }
    {
        match kind {
            Kind::Number => &self.numbers,
            Kind::Day => &self.days,
        }
    }

    /// Tells the numbers of these from a place on, up to the first that has none at hand. Gives its place.
    pub(crate) fn run(
        &self,
        kind: Kind,
        values: &[i64],
        from: usize,
        numbers: &mut [usize],
    ) -> usize
        requires from { from ≤ length values.now }
        requires same { length numbers.old ≡ length values.now }
        ensures from { from ≤ result }
        ensures within { result ≤ length values.now }
        ensures run { IsWholeRun (number_in self.now) kind values.now from result numbers.old numbers.new }
    {
        let (least, codes) = self.window(kind).list();
        for place in from..values.len() {
            match code_at(codes, least, values[place]) {
                0 => return place,
                code => numbers[place] = code as usize - 1,
            }
        }
        values.len()
    }

    /// Looks each of these up.
    pub(crate) fn find(&self, kind: Kind, values: &[i64], found: &mut [Option<usize>])
        requires { length found.old ≡ length values.now }
        ensures same { length found.new ≡ length found.old }
        ensures found { found.new ≡ map (number_in self.now) (whole_values kind values.now) }
    {
        let window = self.window(kind);
        let (least, codes) = window.list();
        let has_others = window.has_others();
        for place in 0..values.len() {
            let code = code_at(codes, least, values[place]);
            found[place] = self.coded(kind, values[place], code, has_others);
        }
    }

    /// The number of a value that stands as a whole number with this code. A map is asked only where it has numbers.
    #[inline(always)]
    fn coded(&self, kind: Kind, value: i64, code: u32, has_others: bool) -> Option<usize>
        requires code { code ≡ window_code self.now kind value }
        requires others { OnFalse has_others ((window_of self.now kind).others.entries ≡ []) }
        ensures { result ≡ number_in self.now (whole_value kind value) }
    {
        match code {
            0 => self.past_list(kind, value, has_others),
            code => Some(code as usize - 1),
        }
    }

    /// The number of a value whose code is 0.
    #[inline(always)]
    fn past_list(&self, kind: Kind, value: i64, has_others: bool) -> Option<usize>
        requires code { window_code self.now kind value ≡ 0 }
        requires others { OnFalse has_others ((window_of self.now kind).others.entries ≡ []) }
        ensures { result ≡ number_in self.now (whole_value kind value) }
    {
        if has_others {
            self.whole(kind, value)
        } else {
            None
        }
    }

    /// Gives a number to a value that has none.
    pub(crate) fn put(
        &mut self,
        alloc: Global,
        value: &Lent<'_>,
        number: usize,
    ) -> Result<(), AllocError>
        requires { number_in self.old (owned value.now) ≡ None }
        ensures ok { OnOk result (PutsAt self.old (owned value.now) number self.new) }
        ensures err { OnErr result (Agree self.old self.new) }
    {
        match value {
            Lent::Number(key) => self.put_number(alloc, *key, number),
            Lent::Day(day) => self.put_day(alloc, day.number(), number),
            Lent::Text(text) => self.put_text(alloc, text, number),
            Lent::Null => {
                self.null = Some(number);
                Ok(())
            }
        }
    }

    fn put_number(&mut self, alloc: Global, key: i128, number: usize) -> Result<(), AllocError>
        requires { number_in self.old (Number key) ≡ None }
        ensures ok { OnOk result (PutsAt self.old (Number key) number self.new) }
        ensures err { OnErr result (Agree self.old self.new) }
    {
        match in_64_bits(key) {
            Some(key) => self.numbers.put(alloc, key, number),
            None => {
                self.wide.insert(key, number)?;
                Ok(())
            }
        }
    }

    fn put_day(&mut self, alloc: Global, key: i32, number: usize) -> Result<(), AllocError>
        requires { number_in self.old (DayOf key) ≡ None }
        ensures ok { OnOk result (PutsAt self.old (DayOf key) number self.new) }
        ensures err { OnErr result (Agree self.old self.new) }
    {
        self.days.put(alloc, i64::from(key), number)
    }

    fn put_text(&mut self, alloc: Global, key: &str, number: usize) -> Result<(), AllocError>
        ensures ok { OnOk result (PutsAt self.old (TextOf key.now) number self.new) }
        ensures err { OnErr result (Agree self.old self.new) }
    {
        self.texts.put(alloc, key, number)
    }
}

/// The number as one of 64 bits, if they hold it.
fn in_64_bits(number: i128) -> Option<i64>
    ensures is { IfSome result (λ n. n ≡ number) }
    ensures fits { IsSome result ↔ (fits_64_bits number ≡ true) }
{
    i64::try_from(number).ok()
}
