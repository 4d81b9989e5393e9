//! Rows that are stored column by column.
//!
//! They are at most 1,024 rows that stand side by side in encoded columns. All pieces of a segment share these, so columns
//! take no memory of their own. `gather` and `gather_at` give a column as a vector, and `lend` one value where it stands.
//! `cut_front` drops rows at the front, where the encoded ones stay: then `gather` reads the others place by place. `share`
//! gives the same rows once more, and copies none.
ghost use Rattle.std.specs.List.{All};
ghost use Rattle.std.specs.Option.{IfNone};
ghost use Rattle.std.specs.Prelude.{IfOk, IfSome, [], drop, length, replicate, slice_index_or, ◌*◌, ◌<◌, ◌≡◌, ◌≤◌};
ghost use Rattle.cq_encodings.specs.AnyEncoded.{encoded_values};
ghost use Rattle.cq_encodings_numbers.specs.Bounds.{AreBoundsOf};
ghost use Rattle.cq_encodings_vectors.specs.Places.{AreBelow, rows_at};
ghost use Rattle.cq_segments_pieces.specs.Columns.{AreColumns, parts_of, rows_of_columns, values_from};
ghost use Rattle.cq_segments_pieces.specs.Rows.{row_of};
ghost use Rattle.cq_values.specs.Lent.{owned};
ghost use Rattle.cq_values.specs.Value.{column as column_at};
ghost use Rattle.cq_values.specs.declared.value.Value.TheVariants.{Null};
ghost use Rattle.cq_vectors.specs.Gathered.{column_of};

use crate::places_from::{places_behind, places_from};
use crate::stored_row::StoredRow;
use cq_encodings::AnyEncoded;
use cq_encodings_numbers::Bounds;
use cq_encodings_plain::Encoded;
use cq_encodings_vectors::{vector_at, vector_of};
use cq_values::Lent;
use cq_vectors::{Form, Vector};
use std::alloc::{AllocError, Global};
use std::marker::Model;
use std::rc::Rc;

/// At least one row and at most 1,024, all of one width, column by column.
#[derive(Drop)]
pub struct Columns {
    /// The columns of all rows that share them.
    encoded: Rc<Vec<AnyEncoded>>,
    /// Which 1,024 of their rows these are.
    part: usize,
    /// How many of the part are cut off at its front.
    from: usize,
    /// How many rows the part has, with those.
    count: usize,
}

impl Model for Columns {
    ghost use Rattle.std.specs.Prelude.{List};
    ghost use Rattle.cq_segments_pieces.specs.Columns.{IsPart, rows_of_part};
    ghost use Rattle.cq_values.specs.Value.{Row};

    ghost Value = { List Row };

    ghost view = { λ c. rows_of_part c.encoded.value.items c.part c.from c.count };

    ghost invariant = { λ c. IsPart c.encoded.value.items c.part c.from c.count };
}

impl Columns {
    /// One part of the rows of encoded columns.
    pub fn of(encoded: Rc<Vec<AnyEncoded>>, part: usize, count: usize) -> Columns
        requires early { part < 64 }
        requires long { AreColumns (parts_of part encoded.value.items) count }
        ensures { result ≡ rows_of_columns (parts_of part encoded.value.items) count }
    {
        Columns {
            encoded,
            part,
            from: 0,
            count,
        }
    }

    /// The same rows, which share the encoded columns. An error comes where no more can share them.
    pub fn share(&self) -> Result<Columns, AllocError>
        ensures { IfOk result (λ columns. columns ≡ self.now) }
    {
        Ok(Columns {
            encoded: self.encoded.clone()?,
            part: self.part,
            from: self.from,
            count: self.count,
        })
    }

    /// How many rows there are.
    pub fn len(&self) -> usize
        ensures len { result ≡ length self.now }
        ensures some { 0 < result }
        ensures few { result ≤ 1024 }
    {
        self.count - self.from
    }

    /// How many values each row has.
    pub fn width(&self) -> usize
        ensures { All (λ row. length row ≡ result) self.now }
    {
        self.encoded.as_ref().len()
    }

    /// The value of a column in the row at a place, and NULL where there is none.
    pub fn lend(&self, place: usize, column: usize) -> Lent<'_>
        ensures { owned result ≡ column_at (slice_index_or self.now place []) column }
    {
        match self.column(column) {
            Some((encoded, part, from)) => if place < self.len() {
                encoded.value_at(1024 * part + from + place)
            } else {
                Lent::Null
            },
            None => Lent::Null,
        }
    }

    /// The row at a place, where it stands.
    pub fn row(&self, place: usize) -> StoredRow<'_>
        requires { place < length self.now }
        ensures { row_of result ≡ slice_index_or self.now place [] }
    {
        let _count = self.len();
        StoredRow::InColumns(self, place as u16)
    }

    /// The values of a column, which are NULL where there is no such column.
    pub fn gather(&self, alloc: Global, column: usize) -> Result<Vector<'_>, AllocError>
        ensures { IfOk result (λ vector. vector ≡ column_of self.now column) }
    {
        match self.column(column) {
            Some((encoded, part, 0)) => vector_of(alloc, encoded, part),
            Some((encoded, part, from)) => {
                let places = places_from(alloc, from, self.len())?;
                vector_at(alloc, encoded, part, places.as_slice())
            }
            None => Ok(Vector::new(Form::Constant(Lent::Null, self.len()))),
        }
    }

    /// The values of a column in the rows at some places.
    pub fn gather_at(
        &self,
        alloc: Global,
        places: &[u16],
        column: usize,
    ) -> Result<Vector<'_>, AllocError>
        requires few { length places.now ≤ 1024 }
        requires there { AreBelow (length self.now) places.now }
        ensures { IfOk result (λ v. v ≡ column_of (rows_at self.now places.now) column) }
    {
        match self.column(column) {
            Some((encoded, part, 0)) => vector_at(alloc, encoded, part, places),
            Some((encoded, part, from)) => {
                let places = places_behind(alloc, from, places)?;
                vector_at(alloc, encoded, part, places.as_slice())
            }
            None => Ok(Vector::new(Form::Constant(Lent::Null, places.len()))),
        }
    }

    /// The bounds of a column, where they are known.
    pub fn bounds(&self, at: usize) -> Option<Bounds<'_>>
        ensures { IfSome result (λ b. AreBoundsOf b (column_of self.now at)) }
    {
        let (encoded, part, from) = self.column(at)?;
        if from > 0 {
            return None;
        }
        match encoded {
            AnyEncoded::Packed(packed) => Some(packed.part_bounds(part)),
            _ => None,
        }
    }

    /// Drops the first rows.
    pub(crate) fn cut_front(&mut self, count: usize)
        requires { count < length self.old }
        ensures { self.new ≡ drop count self.old }
    {
        let _len = self.len();
        self.from += count;
    }

    /// The encoding of a column, which part of it these rows have, and from which place of the part on.
    pub fn column(&self, at: usize) -> Option<(&AnyEncoded, usize, usize)>
        ensures early { IfSome result (λ p. (p.1 < 64) × (p.2 < 1024)) }
        ensures there { IfSome result (λ p. 1024 * p.1 ≤ length (encoded_values p.0.now)) }
        ensures part { IfSome result (λ p. values_from p.0.now p.1 p.2 ≡ column_of self.now at) }
        ensures past { IfNone result (column_of self.now at ≡ replicate (length self.now) Null) }
    {
        match self.encoded.as_ref().get(at) {
            Some(encoded) => Some((encoded, self.part, self.from)),
            None => None,
        }
    }
}
