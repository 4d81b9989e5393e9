//! Texts that are lent.
//!
//! A column of texts is made whole, by `new` or by `gather`, and does not change. The texts stay where they stand, in
//! rows or in a table; what is kept of each is its address and its length. Kernels read `values` and `nulls` as they
//! stand.
ghost use Rattle.std.specs.Prelude.{IfOk, IfSome, length, map, slice_index_or, ◌≡◌, ◌≤◌};
ghost use Rattle.std.specs.Simd.Lanes.{zip2};
ghost use Rattle.cq_values.specs.Lent.{owned};
ghost use Rattle.cq_values.specs.Order.{bytes};
ghost use Rattle.cq_values.specs.declared.value.Value.TheVariants.{Null};
ghost use Rattle.cq_model.specs.Condition.{is_null};
ghost use Rattle.cq_values.specs.Value.{column as column_at};
ghost use Rattle.cq_vectors_stored.specs.Columns.{EmptyWhere, text_unless, texts_of};
ghost use Rattle.cq_vectors.specs.Gathered.{IsText, column_of, lent_rows};

use cq_values::{Lent, Row, Value};
use cq_vectors_masks::Plane;
use std::alloc::{AllocError, Global};
use std::marker::Model;

/// At most 1,024 texts and NULLs, each text where it stands. Where NULL stands the text is empty.
#[derive(Drop)]
pub struct Texts<'a> {
    values: Vec<&'a str>,
    nulls: Plane,
}

impl<'a> Model for Texts<'a> {
    ghost use Rattle.std.specs.Prelude.{List};
    ghost use Rattle.std.specs.Simd.Lanes.{zip2};
    ghost use Rattle.cq_values.specs.declared.value.Value.{Value as Datum};
    ghost use Rattle.cq_vectors_stored.specs.Columns.{AreTexts, text_unless, texts_of};

    ghost Value = { List Datum };

    ghost view = { λ c. zip2 text_unless (texts_of c.values.items) c.nulls };

    ghost invariant = { λ c. AreTexts (texts_of c.values.items) c.nulls };
}

impl<'a> Texts<'a> {
    /// Takes no memory.
    pub fn new(values: Vec<&'a str>, nulls: Plane) -> Texts<'a>
        requires few { length values.items ≤ 1024 }
        requires same { length nulls ≡ length values.items }
        requires empty { EmptyWhere nulls (texts_of values.items) }
        ensures { result ≡ zip2 text_unless (texts_of values.entry.items) nulls }
    {
        Texts { values, nulls }
    }

    /// The texts of a column where they stand, or None where a value is no text.
    pub(crate) fn gather(
        alloc: Global,
        rows: &[&'a Row],
        column: usize,
    ) -> Result<Option<Texts<'a>>, AllocError>
        requires { length rows.now ≤ 1024 }
        ensures { IfOk result (λ found. IfSome found (λ c. c ≡ column_of (lent_rows rows.now) column)) }
    {
        let mut values: Vec<&'a str> = Vec::new(alloc);
        values.reserve(rows.len())?;
        let mut nulls = Plane::new();
        for row in rows {
            match text_at(*row, column) {
                Some((text, is_null)) => {
                    values.push(text)?;
                    nulls.push(is_null);
                }
                None => return Ok(None),
            }
        }
        Ok(Some(Texts::new(values, nulls)))
    }

    pub fn len(&self) -> usize
        ensures len { result ≡ length self.now }
        ensures few { result ≤ 1024 }
    {
        self.values.len()
    }

    /// The texts, for kernels: empty where NULL stands.
    pub fn values(&self) -> &[&'a str]
        ensures values { texts_of result.now ≡ map bytes self.now }
        ensures few { length result.now ≤ 1024 }
        ensures whole { self.now ≡ zip2 text_unless (texts_of result.now) (map is_null self.now) }
    {
        self.values.as_slice()
    }

    pub fn nulls(&self) -> &Plane
        ensures { result.now ≡ map is_null self.now }
    {
        &self.nulls
    }

    /// The value of a place, and NULL past the end.
    pub fn lend(&self, place: usize) -> Lent<'_>
        ensures { owned result ≡ slice_index_or self.now place Null }
    {
        let values = self.values.as_slice();
        if place < values.len() && !self.nulls.get(place) {
            Lent::Text(values[place])
        } else {
            Lent::Null
        }
    }
}

/// The text, or none of NULL, and whether it is NULL.
fn text_at<'b>(row: &'b Row, column: usize) -> Option<(&'b str, bool)>
    ensures text { IfSome result (λ part. part.0.now ≡ bytes (column_at row.now column)) }
    ensures null { IfSome result (λ part. part.1 ≡ is_null (column_at row.now column)) }
    ensures kind { IfSome result (λ part. IsText (column_at row.now column)) }
{
    match row.as_slice().get(column) {
        Some(Value::Text(text)) => Some((text.as_str(), false)),
        None | Some(Value::Null) => Some(("", true)),
        Some(_) => None,
    }
}
