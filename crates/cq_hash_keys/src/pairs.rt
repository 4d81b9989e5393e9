//! Pairs of numbers, each once, with a number.
//!
//! `add` puts in what is new of pairs, and tells the number of each; `find` puts nothing in; `pair` reads the pair of a
//! number. Before each `add` the grid is made anew where it is too small for the numbers that may come and the pairs
//! are many enough for a larger one.
ghost use Rattle.std.specs.Prelude.{IfOk, None, OnErr, OnOk, [], length, slice_index_or, zip, ◌<◌, ◌≡◌, ◌≤◌, ◌^◌};
ghost use Rattle.indexmap.specs.IndexSet.{insert_key};
ghost use Rattle.cq_hash_keys.specs.Grid.{same_pair};
ghost use Rattle.cq_hash_keys_values.specs.Met.{IsNumberIn, TakesFront, with_new};
ghost use Rattle.cq_hash_keys.specs.Pairs.{ArePairNumbers, IsPairRun, place_of_both, place_of_pair, places_of_pairs};

use crate::grid::Grid;
use std::alloc::{AllocError, Global};
use std::marker::Model;

/// How many codes a grid may have once many pairs are in, and how many where they are few.
const MOST: usize = 4_194_304;

const FEW: usize = 65_536;

/// Pairs, each once, as they were first met. The number of each is its place among them.
#[derive(Drop)]
pub(crate) struct Pairs {
    met: Vec<(usize, usize)>,
    ways: Grid,
}

impl Model for Pairs {
    ghost use Rattle.std.specs.Prelude.{ℕ, List};
    ghost use Rattle.cq_hash_keys.specs.Pairs.{ArePairs};

    ghost Value = { List (ℕ × ℕ) };

    ghost view = { λ p. p.met.items };

    ghost invariant = { λ p. ArePairs p.ways p.met.items };
}

impl Pairs {
    pub(crate) fn new(alloc: Global) -> Result<Pairs, AllocError>
        ensures { IfOk result (λ pairs. pairs ≡ []) }
    {
        Ok(Pairs {
            met: Vec::new(alloc),
            ways: Grid::new(alloc, 0, 0)?,
        })
    }

    pub(crate) fn len(&self) -> usize
        ensures { result ≡ length self.now }
    {
        self.met.len()
    }

    /// The pair of a number.
    pub(crate) fn pair(&self, number: usize) -> (usize, usize)
        requires { number < length self.now }
        ensures { result ≡ slice_index_or self.now number (0, 0) }
    {
        self.met[number]
    }

    /// Puts in what is new of the pairs at each place, and tells the number of each.
    pub(crate) fn add(
        &mut self,
        firsts: &[usize],
        seconds: &[usize],
        numbers: &mut Vec<usize>,
    ) -> Result<(), AllocError>
        requires { length firsts.now ≡ length seconds.now }
        ensures pairs { OnOk result (self.new ≡ with_new same_pair self.old (zip firsts.now seconds.now)) }
        ensures numbers { OnOk result (ArePairNumbers self.new firsts.now seconds.now numbers.new.items) }
        ensures front { TakesFront same_pair self.old (zip firsts.now seconds.now) self.new }
    {
        numbers.resize(firsts.len(), 0)?;
        self.number_all(firsts, seconds, numbers.as_mut_slice())
    }

    /// Puts in what is new of the pairs at each place, and tells the number of each.
    fn number_all(
        &mut self,
        firsts: &[usize],
        seconds: &[usize],
        numbers: &mut [usize],
    ) -> Result<(), AllocError>
        requires seconds { length seconds.now ≡ length firsts.now }
        requires same { length numbers.old ≡ length firsts.now }
        ensures pairs { OnOk result (self.new ≡ with_new same_pair self.old (zip firsts.now seconds.now)) }
        ensures numbers { OnOk result (ArePairNumbers self.new firsts.now seconds.now numbers.new) }
        ensures front { TakesFront same_pair self.old (zip firsts.now seconds.now) self.new }
        ensures same { length numbers.new ≡ length numbers.old }
    {
        let mut place = 0;
        while place < firsts.len() {
            numbers[place] = self.number(firsts[place], seconds[place])?;
            place = self.run(firsts, seconds, place + 1, numbers);
        }
        Ok(())
    }

    /// Tells the numbers of the pairs from a place on, up to the first that has none at hand. Gives its place.
    fn run(&self, firsts: &[usize], seconds: &[usize], from: usize, numbers: &mut [usize]) -> usize
        requires from { from ≤ length firsts.now }
        requires seconds { length seconds.now ≡ length firsts.now }
        requires same { length numbers.old ≡ length firsts.now }
        ensures from { from ≤ result }
        ensures within { result ≤ length firsts.now }
        ensures run { IsPairRun self.now firsts.now seconds.now from result numbers.old numbers.new }
    {
        self.ways.run(firsts, seconds, from, numbers)
    }

    /// The number of the pair at each place, None where a part has none or the pair was never met.
    pub(crate) fn find(
        &self,
        firsts: &[Option<usize>],
        seconds: &[Option<usize>],
        numbers: &mut Vec<Option<usize>>,
    ) -> Result<(), AllocError>
        requires { length firsts.now ≡ length seconds.now }
        ensures { OnOk result (numbers.new.items ≡ places_of_pairs self.now firsts.now seconds.now) }
    {
        numbers.clear();
        numbers.reserve(firsts.len())?;
        for place in 0..firsts.len() {
            numbers.push_reserved(self.place(firsts[place], seconds[place]));
        }
        Ok(())
    }

    /// The number of the pair, None where a part has none or the pair was never met.
    fn place(&self, first: Option<usize>, second: Option<usize>) -> Option<usize>
        ensures { result ≡ place_of_both self.now (first, second) }
    {
        match (first, second) {
            (Some(first), Some(second)) => self.ways.get(first, second),
            _ => None,
        }
    }

    /// The number of a pair, which is put in where it is new.
    #[inline(always)]
    fn number(&mut self, first: usize, second: usize) -> Result<usize, AllocError>
        ensures met { OnOk result (self.new ≡ insert_key same_pair self.old (first, second)) }
        ensures number { IfOk result (IsNumberIn (0, 0) self.new (first, second)) }
        ensures err { OnErr result (self.new ≡ self.old) }
    {
        match self.ways.get(first, second) {
            Some(number) => Ok(number),
            None => self.new_number(first, second),
        }
    }

    /// The number of a pair that was not met, which is put in.
    #[inline(never)]
    fn new_number(&mut self, first: usize, second: usize) -> Result<usize, AllocError>
        requires { place_of_pair self.old (first, second) ≡ None }
        ensures met { OnOk result (self.new ≡ insert_key same_pair self.old (first, second)) }
        ensures number { IfOk result (IsNumberIn (0, 0) self.new (first, second)) }
        ensures err { OnErr result (self.new ≡ self.old) }
    {
        let number = self.met.len();
        self.met.reserve(1)?;
        self.ways.put(first, second, number)?;
        self.met.push_reserved((first, second));
        Ok(number)
    }

    /// Makes the grid fit for so many first and second numbers, if it may be as large. The pairs stay as they are.
    pub(crate) fn fit(
        &mut self,
        alloc: Global,
        firsts: usize,
        seconds: usize,
    ) -> Result<(), AllocError>
        ensures { self.new ≡ self.old }
    {
        if firsts > MOST || seconds > MOST {
            return Ok(());
        }
        let stride = self.ways.stride();
        let most = most_codes(self.met.len());
        let wide = wider(stride, seconds);
        let needed = firsts * wide;
        if needed > most {
            return Ok(());
        }
        let len = needed.max((2 * needed).min(most));
        if wide > stride {
            return self.lay_anew(alloc, wide as u32, len);
        }
        if needed > self.ways.len() {
            return self.ways.lengthen(len);
        }
        Ok(())
    }

    /// Puts the pairs into a new grid.
    fn lay_anew(&mut self, alloc: Global, stride: u32, len: usize) -> Result<(), AllocError>
        ensures { self.new ≡ self.old }
    {
        let mut grid = Grid::new(alloc, stride, len)?;
        for number in 0..self.met.len() {
            let (first, second) = self.met[number];
            grid.put(first, second, number)?;
        }
        self.ways = grid;
        Ok(())
    }
}

/// How many codes a grid may have for so many pairs: few have no use for a large one.
fn most_codes(count: usize) -> usize
    ensures { result ≤ 4194304 }
{
    if count < 16_128 {
        FEW + count * 256
    } else {
        MOST
    }
}

/// The stride for so many second numbers: the old one, or at least twice as much.
fn wider(stride: usize, seconds: usize) -> usize
    requires old { stride < 2 ^ 32 }
    requires few { seconds ≤ 4194304 }
    ensures { result < 2 ^ 32 }
{
    if seconds <= stride {
        stride
    } else {
        seconds.max((2 * stride).min(MOST))
    }
}
