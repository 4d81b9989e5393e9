//! Memory of vectors that are done with, for those that are made next.
//!
//! A kernel takes the room for its results from here, and whoever is done with a vector gives it back, in whatever form
//! it is. What is kept of it has no meaning: a list that is taken is empty. Memory is taken where none is kept, and a few
//! lists of each width are kept at most. One of these lives as long as a query does.
ghost use Rattle.std.specs.Prelude.{[], ◌≡◌};

use crate::vector::{Form, Vector};
use std::alloc::Global;

/// At most so many lists of a width are kept.
const KEPT: usize = 8;

/// Lists whose memory waits for the next results.
#[derive(Drop)]
pub struct Buffers {
    numbers: Vec<Vec<i64>>,
    wide: Vec<Vec<i128>>,
}

impl Buffers {
    /// Takes no memory.
    pub fn new(alloc: Global) -> Buffers {
        Buffers {
            numbers: Vec::new(alloc),
            wide: Vec::new(alloc),
        }
    }

    /// An empty list for numbers of 64 bits.
    pub fn numbers(&mut self, alloc: Global) -> Vec<i64>
        ensures { result.items ≡ [] }
    {
        emptied(alloc, &mut self.numbers)
    }

    /// An empty list for numbers of 128 bits.
    pub fn wide(&mut self, alloc: Global) -> Vec<i128>
        ensures { result.items ≡ [] }
    {
        emptied(alloc, &mut self.wide)
    }

    /// Keeps the memory of a vector that nobody reads any more.
    pub fn take_back(&mut self, vector: Vector<'_>) {
        match vector.into_form() {
            Form::Numbers(numbers) => keep(&mut self.numbers, numbers.into_values()),
            Form::Wide(numbers) => keep(&mut self.wide, numbers.into_values()),
            _ => {}
        }
    }
}

/// A list that was kept, or a new one.
fn emptied<T: Drop>(alloc: Global, kept: &mut Vec<Vec<T>>) -> Vec<T>
    ensures { result.items ≡ [] }
{
    match kept.pop() {
        Some(values) => {
            let mut values = values;
            values.clear();
            values
        }
        None => Vec::new(alloc),
    }
}

/// Where there is no room for one more it is let go.
fn keep<T: Drop>(kept: &mut Vec<Vec<T>>, values: Vec<T>) {
    if kept.len() < KEPT {
        if let Err(fault) = kept.push(values) {
            drop(fault);
        }
    } else {
        drop(values);
    }
}
