//! Texts of one column, as they come.
ghost use Rattle.std.specs.Prelude.{[], IfOk, IfSome, OnErr, length, slice_index_or, true, ◌<◌, ◌≡◌};
ghost use Rattle.cq_encodings_plain.specs.Parts.{Makes};
ghost use Rattle.cq_encodings_plain.specs.Plain.{plain_values};
ghost use Rattle.cq_values.specs.Lent.{owned};
ghost use Rattle.cq_values.specs.Value.{is_null};
ghost use Rattle.cq_values.specs.declared.value.Value.TheVariants.{Null};
ghost use Rattle.cq_vectors_stored.specs.Columns.{text_unless};
ghost use Rattle.cq_writestore_rows.specs.TypedColumn.{Puts};

use cq_encodings_plain::{Nulls, Plain, PlainTexts};
use cq_values::Lent;
use cq_vectors_masks::Plane;
use cq_vectors_stored::TextRun;
use std::alloc::{AllocError, Global};
use std::marker::Model;

/// At most 1,024 texts one behind the other, with flags where NULL stands: there the text is empty.
#[derive(Drop)]
pub(crate) struct TextColumn {
    texts: TextRun,
    nulls: Plane,
}

impl Model for TextColumn {
    ghost use Rattle.std.specs.Prelude.{List, [], length, ◌≡◌};
    ghost use Rattle.std.specs.Simd.Lanes.{zip2};
    ghost use Rattle.cq_encodings_plain.specs.Nulls.{NothingWhere};
    ghost use Rattle.cq_values.specs.declared.value.Value.{Value as Datum};
    ghost use Rattle.cq_vectors_stored.specs.Columns.{text_unless};

    ghost Value = { List Datum };

    ghost view = { λ c. zip2 text_unless c.texts c.nulls };

    ghost invariant = { λ c. (length c.nulls ≡ length c.texts) × NothingWhere [] c.nulls c.texts };
}

impl TextColumn {
    /// Takes no memory.
    pub(crate) fn new(alloc: Global) -> TextColumn
        ensures { result ≡ [] }
    {
        TextColumn {
            texts: TextRun::new(alloc),
            nulls: Plane::new(),
        }
    }

    /// Puts a value behind the others, if it is a text or NULL and there is room for it.
    pub(crate) fn push(&mut self, value: &Lent<'_>) -> Result<bool, AllocError>
        requires { length self.old < 1024 }
        ensures ok { IfOk result (Puts (owned value.now) self.old self.new) }
        ensures err { OnErr result (self.new ≡ self.old) }
    {
        match text_of(value) {
            Some(text) if self.texts.has_room(text) => {
                self.texts.push(text)?;
                self.nulls.push(value.is_null());
                Ok(true)
            }
            _ => Ok(false),
        }
    }

    /// The value at a place.
    pub(crate) fn value_at(&self, place: usize) -> Lent<'_>
        requires { place < length self.now }
        ensures { owned result ≡ slice_index_or self.now place Null }
    {
        let _len = self.nulls.len();
        if self.nulls.get(place) {
            return Lent::Null;
        }
        Lent::Text(self.texts.get(place))
    }

    pub(crate) fn len(&self) -> usize
        ensures { result ≡ length self.now }
    {
        self.texts.len()
    }

    pub(crate) fn into_plain(self, alloc: Global) -> Result<Plain, AllocError>
        ensures { IfOk result (λ plain. plain_values plain ≡ self) }
    {
        let nulls = Nulls::of_plane(alloc, self.nulls)?;
        Ok(Plain::Texts(PlainTexts::of_parts(self.texts, nulls)))
    }
}

/// The text, or an empty one for NULL. None where the value is a number or a day.
fn text_of<'a>(value: &Lent<'a>) -> Option<&'a str>
    ensures same { IfSome result (λ text. Makes text_unless text.now value.now) }
    ensures empty { IfSome result (λ text. is_null (owned value.now) ≡ true → text.now ≡ []) }
{
    match value {
        Lent::Text(text) => Some(text),
        Lent::Null => Some(""),
        _ => None,
    }
}
