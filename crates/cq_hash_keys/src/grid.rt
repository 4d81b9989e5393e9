//! The numbers of pairs of numbers.
//!
//! Where both numbers are small the number of the pair stands in a grid, at the first times the stride and the second.
//! A map has the others. To look one up takes one read in the grid, and hashing only where the grid has nothing.
ghost use Rattle.std.specs.Prelude.{IfOk, None, OnErr, OnOk, length, ℕ, ◌<◌, ◌≡◌, ◌≤◌, ◌^◌};
ghost use Rattle.indexmap.specs.IndexMap.{get};
ghost use Rattle.cq_hash_keys_values.specs.Codes.{code_in};
ghost use Rattle.cq_hash_keys.specs.Grid.{AgreeOn, IsGridRun, PutsPair, cell_of, pair_in, same_pair};

use indexmap::IndexMap;
use std::alloc::{AllocError, Global};

/// A number for each of some pairs. A code is one more than the number that it stands for, and 0 where the map has to
/// be asked; there are `stride` codes for each first number.
#[derive(Drop)]
pub(crate) struct Grid {
    stride: u32,
    codes: Vec<u32>,
    others: IndexMap<(usize, usize), usize>,
}

impl Grid {
    /// No pairs, and room for so many codes.
    pub(crate) fn new(alloc: Global, stride: u32, len: usize) -> Result<Grid, AllocError>
        ensures { IfOk result (λ grid. (pair : ℕ × ℕ) → pair_in grid pair ≡ None) }
    {
        let mut codes = Vec::new(alloc);
        codes.resize(len, 0)?;
        Ok(Grid {
            stride,
            codes,
            others: IndexMap::new(alloc),
        })
    }

    /// How many second numbers there is room for.
    pub(crate) fn stride(&self) -> usize
        ensures { result < 2 ^ 32 }
    {
        self.stride as usize
    }

    /// How many codes there are.
    pub(crate) fn len(&self) -> usize {
        self.codes.len()
    }

    /// Makes room for so many codes.
    pub(crate) fn lengthen(&mut self, len: usize) -> Result<(), AllocError>
        ensures { AgreeOn self.old self.new }
    {
        if len <= self.codes.len() {
            return Ok(());
        }
        self.codes.resize(len, 0)
    }

    #[inline(always)]
    pub(crate) fn get(&self, first: usize, second: usize) -> Option<usize>
        ensures { result ≡ pair_in self.now (first, second) }
    {
        match code_at(self.codes.as_slice(), self.stride, first, second) {
            0 => self.other(first, second),
            code => Some(code as usize - 1),
        }
    }

    /// Tells the numbers of the pairs from a place on, up to the first that the grid has no code of. Gives its place.
    pub(crate) fn run(
        &self,
        firsts: &[usize],
        seconds: &[usize],
        from: usize,
        numbers: &mut [usize],
    ) -> usize
        requires from { from ≤ length firsts.now }
        requires seconds { length seconds.now ≡ length firsts.now }
        requires same { length numbers.old ≡ length firsts.now }
        ensures from { from ≤ result }
        ensures within { result ≤ length firsts.now }
        ensures run { IsGridRun self.now firsts.now seconds.now from result numbers.old numbers.new }
    {
        let (stride, codes) = (self.stride, self.codes.as_slice());
        for place in from..firsts.len() {
            match code_at(codes, stride, firsts[place], seconds[place]) {
                0 => return place,
                code => numbers[place] = code as usize - 1,
            }
        }
        firsts.len()
    }

    #[inline(never)]
    fn other(&self, first: usize, second: usize) -> Option<usize>
        ensures { result ≡ get same_pair self.now.others (first, second) }
    {
        self.others.get(&(first, second)).copied()
    }

    /// Gives a number to a pair that has none.
    pub(crate) fn put(
        &mut self,
        first: usize,
        second: usize,
        number: usize,
    ) -> Result<(), AllocError>
        requires { pair_in self.old (first, second) ≡ None }
        ensures ok { OnOk result (PutsPair self.old (first, second) number self.new) }
        ensures err { OnErr result (AgreeOn self.old self.new) }
    {
        if let Some(cell) = cell_of(self.stride, first, second) {
            if cell < self.codes.len() && number < 4_294_967_295 {
                self.codes[cell] = number as u32 + 1;
                return Ok(());
            }
        }
        self.others.insert((first, second), number)?;
        Ok(())
    }
}

/// The place of a pair in the grid, None where a number is not small.
#[inline(always)]
fn cell_of(stride: u32, first: usize, second: usize) -> Option<usize>
    ensures { result ≡ cell_of stride (first, second) }
{
    if first < 4_194_304 && second < stride as usize {
        Some(first * stride as usize + second)
    } else {
        None
    }
}

/// The code of a pair, 0 where it is not in the grid.
#[inline(always)]
fn code_at(codes: &[u32], stride: u32, first: usize, second: usize) -> u32
    ensures { result ≡ code_in codes.now (cell_of stride (first, second)) }
{
    match cell_of(stride, first, second) {
        Some(cell) if cell < codes.len() => codes[cell],
        _ => 0,
    }
}
