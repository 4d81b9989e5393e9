//! Where the rows stand that WHERE keeps.
//!
//! [`crate::Table::find`] gives it; `chosen`, `images`, `delete` and `replace` take it. It is good as long as no other
//! write, move or merge of the table came between. It costs a word a row.
ghost use Rattle.std.specs.Prelude.{◌≡◌, length};

use std::marker::Model;

/// Places among all stored rows of a table, rising.
#[derive(Drop)]
pub struct Found {
    places: Vec<usize>,
}

impl Model for Found {
    ghost use Rattle.std.specs.Prelude.{List, ℕ};

    ghost Value = { List ℕ };

    ghost view = { λ f. f.places.items };
}

impl Found {
    pub(crate) fn new(places: Vec<usize>) -> Found
        ensures { result ≡ places.items }
    {
        Found { places }
    }

    /// How many rows they are.
    pub fn len(&self) -> usize
        ensures { result ≡ length self.now }
    {
        self.places.len()
    }

    pub(crate) fn places(&self) -> &[usize]
        ensures { result.now ≡ self.now }
    {
        self.places.as_slice()
    }
}
