//! Numbers of 64 bits as the steps to each from the one before it.
//!
//! Every 1,024th number is kept too, from the first on, and reading begins there. Numbers and steps are the bits of 64,
//! and a step that leaves them wraps.
ghost use Rattle.std.specs.Prelude.{IfOk, drop, length, slice_index, take, ◌%◌, ◌+◌, ◌<◌, ◌^◌, ◌≡◌};
ghost use Rattle.cq_encodings_numbers.specs.Steps.{AreMarks, AreSteps, number_at};

use cq_encodings_plain::{PackedNumbers, width_of};
use std::alloc::{AllocError, Global};
use std::marker::Model;

/// Numbers that are reached by steps, each above the least step.
#[derive(Drop)]
pub(crate) struct Steps {
    marks: Vec<u64>,
    least: u64,
    steps: PackedNumbers,
}

impl Model for Steps {
    ghost use Rattle.std.specs.Prelude.{List, ℕ};
    ghost use Rattle.cq_encodings_numbers.specs.Steps.{all_numbers};

    ghost Value = { List ℕ };

    ghost view = { λ s. all_numbers s.marks.items s.least s.steps };
}

impl Steps {
    pub fn of(alloc: Global, numbers: &[u64]) -> Result<Steps, AllocError>
        ensures { IfOk result (λ steps. steps ≡ numbers.now) }
    {
        let least = least_step(numbers);
        let marks = marks_of(alloc, numbers)?;
        let steps = steps_of(alloc, numbers, least)?;
        let width = width_of(&steps);
        Ok(Steps {
            marks,
            least,
            steps: PackedNumbers::of(alloc, &steps, width)?,
        })
    }

    pub fn len(&self) -> usize
        ensures { result ≡ length self.now }
    {
        self.steps.len()
    }

    /// The number at a place, by the steps from the last mark before it.
    pub fn at(&self, place: usize) -> u64
        requires { place < length self.now }
        ensures { result ≡ slice_index self.now place }
    {
        reach(&self.marks, self.least, &self.steps, place)
    }

    /// The number behind the one at a place, by one step, and 0 where there is none.
    pub fn following(&self, place: usize, number: u64) -> u64
        requires there { place < length self.now }
        requires number { number ≡ slice_index self.now place }
        ensures { result ≡ slice_index self.now (place + 1) }
    {
        let len = self.steps.len();
        let place = place + 1;
        if place >= len {
            0
        } else if place % 1024 == 0 {
            mark_at(&self.marks, place / 1024)
        } else {
            next(number, self.least, self.steps.at(place))
        }
    }
}

/// The number that is a step behind another.
fn next(number: u64, least: u64, step: u64) -> u64
    ensures { result ≡ (number + least + step) % 2 ^ 64 }
{
    number.wrapping_add(least).wrapping_add(step)
}

/// The step from a number to the next one.
fn step_between(number: u64, next: u64, least: u64) -> u64
    ensures { (number + least + result) % 2 ^ 64 ≡ next }
{
    next.wrapping_sub(number).wrapping_sub(least)
}

/// The least step from a number to the next one. Another one would do, and take more bits.
fn least_step(numbers: &[u64]) -> u64 {
    let mut least = i64::MAX;
    for i in 1..numbers.len() {
        least = least.min(numbers[i].wrapping_sub(numbers[i - 1]).cast_signed());
    }
    least.cast_unsigned()
}

/// Every 1,024th number, from the first on.
fn marks_of(alloc: Global, numbers: &[u64]) -> Result<Vec<u64>, AllocError>
    ensures { IfOk result (λ marks. AreMarks marks.items numbers.now) }
{
    let mut marks = Vec::new(alloc);
    let count = numbers.len().div_ceil(1024);
    marks.reserve(count)?;
    for k in 0..count {
        marks.push_reserved(numbers[1024 * k]);
    }
    Ok(marks)
}

/// The step to each number from the one before it; the step to the first is 0.
fn steps_of(alloc: Global, numbers: &[u64], least: u64) -> Result<Vec<u64>, AllocError>
    ensures { IfOk result (λ steps. AreSteps least steps.items numbers.now) }
{
    let mut steps = Vec::new(alloc);
    steps.reserve(numbers.len())?;
    let mut last = before_first(numbers, least);
    for number in numbers {
        steps.push_reserved(step_between(last, *number, least));
        last = *number;
    }
    Ok(steps)
}

/// The least step before the first number.
fn before_first(numbers: &[u64], least: u64) -> u64 {
    match numbers.first() {
        Some(first) => first.wrapping_sub(least),
        None => 0,
    }
}

fn mark_at(marks: &[u64], k: usize) -> u64
    ensures { result ≡ slice_index marks.now k }
{
    match marks.get(k) {
        Some(mark) => *mark,
        None => 0,
    }
}

fn reach(marks: &[u64], least: u64, steps: &PackedNumbers, place: usize) -> u64
    requires { place < length steps.now }
    ensures { result ≡ number_at marks.now least steps.now place }
{
    let mark = place / 1024;
    let mut number = mark_at(marks, mark);
    for i in 1024 * mark..place {
        number = next(number, least, steps.at(i + 1));
    }
    number
}
