//! Sides of comparisons of texts.
ghost use Rattle.std.specs.Prelude.{◌<◌, ◌≡◌, IfSome, [], length, replicate, slice_index_or};
ghost use Rattle.cq_values.specs.Lent.{owned};
ghost use Rattle.cq_prims_texts.specs.Kinds.{ShowsTexts};
ghost use Rattle.cq_prims_texts.specs.TextSide.{texts_in};
ghost use Rattle.cq_vectors_stored.specs.Columns.{texts_of};

use crate::plain_texts::{CodedTexts, OneText, PlainTexts, RunColumn, TextColumn};
use cq_values::Lent;
use cq_vectors::{Form, Vector};
use cq_vectors_stored::{Codes, RunTexts};
use std::marker::Model;

/// One side of a comparison, which contracts see as the bytes of the text of each place.
#[derive(Drop)]
pub struct TextSide<'a> {
    form: TextForm<'a>,
}

/// How the texts of a side stand.
#[derive(Drop)]
pub(crate) enum TextForm<'a> {
    Column(TextColumn<'a>),
    Constant(OneText<'a>),
    Run(RunColumn<'a>),
    Codes(CodedTexts<'a>),
}

impl<'a> Model for TextSide<'a> {
    ghost use Rattle.std.specs.Prelude.{List, ℕ};
    ghost use Rattle.cq_prims_texts.specs.TextSide.{texts_in};

    ghost Value = { List (List ℕ) };

    ghost view = { λ s. texts_in s.form };
}

impl<'a> TextSide<'a> {
    /// The texts of the vector, if it is one of texts.
    pub fn of(vector: &'a Vector<'_>) -> Option<TextSide<'a>>
        ensures { IfSome result (λ side. ShowsTexts side vector.now) }
    {
        match vector.form() {
            Form::Texts(texts) => Some(TextSide::column(texts.values())),
            Form::Constant(value, len) => TextSide::of_constant(value, *len),
            Form::Run(texts) => Some(TextSide::of_run(texts)),
            Form::Codes(texts) => Some(TextSide::of_codes(texts)),
            _ => None,
        }
    }

    fn of_constant(value: &Lent<'a>, len: usize) -> Option<TextSide<'a>>
        ensures { IfSome result (λ side. ShowsTexts side (replicate len (owned value.now))) }
    {
        match value {
            Lent::Text(text) => Some(TextSide::constant(text, len)),
            _ => None,
        }
    }

    fn of_run(part: &'a RunTexts<'_>) -> TextSide<'a>
        ensures { ShowsTexts result part.now }
    {
        let (texts, start) = part.parts();
        let _texts = texts.len();
        let nulls = part.nulls();
        TextSide {
            form: TextForm::Run(RunColumn {
                texts,
                start,
                nulls,
            }),
        }
    }

    fn of_codes(texts: &'a Codes<'_>) -> TextSide<'a>
        ensures { ShowsTexts result texts.now }
    {
        let (entries, codes) = texts.parts();
        let nulls = texts.nulls();
        TextSide {
            form: TextForm::Codes(CodedTexts {
                entries,
                codes,
                nulls,
            }),
        }
    }

    pub(crate) fn column(texts: &'a [&'a str]) -> TextSide<'a>
        ensures { result ≡ texts_of texts.now }
    {
        TextSide {
            form: TextForm::Column(TextColumn { texts }),
        }
    }

    pub(crate) fn constant(text: &'a str, len: usize) -> TextSide<'a>
        ensures { result ≡ replicate len text.now }
    {
        TextSide {
            form: TextForm::Constant(OneText { text, len }),
        }
    }

    pub(crate) fn at(&self, place: usize) -> &str
        requires { place < length self.now }
        ensures { result.now ≡ slice_index_or self.now place [] }
    {
        match &self.form {
            TextForm::Column(texts) => texts.at(place),
            TextForm::Constant(text) => text.at(place),
            TextForm::Run(texts) => texts.at(place),
            TextForm::Codes(texts) => texts.at(place),
        }
    }

    /// How the texts stand, for a loop over each form.
    pub(crate) fn form(&self) -> &TextForm<'a>
        ensures { texts_in result.now ≡ self.now }
    {
        &self.form
    }
}
