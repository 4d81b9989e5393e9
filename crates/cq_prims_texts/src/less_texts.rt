//! Whether a text stands before another.
ghost use Rattle.cq_prims_texts.specs.Pairs.{less_at, less_from};
ghost use Rattle.std.specs.Prelude.{◌+◌, ◌<◌, ◌^◌, ◌≡◌, ◌≤◌, length};

use crate::plain_texts::PlainTexts;
use crate::text_side::{TextForm, TextSide};
use cq_vectors_masks::{PlaceTest, WordTest, answers};

/// Whether the left text stands before the right one, byte by byte.
#[derive(Drop)]
pub struct LessTexts<'a> {
    pub a: TextSide<'a>,
    pub b: TextSide<'a>,
    pub ghost same: { length a ≡ length b },
}

impl<'a> PlaceTest for LessTexts<'a> {
    ghost places = { λ t. length t.a };

    ghost holds = { λ t. less_at t.a t.b };

    fn at(&self, i: usize) -> bool {
        let (a, b) = (self.a.at(i), self.b.at(i));
        a < b
    }
}

impl<'a> WordTest for LessTexts<'a> {
    fn word(&self, from: usize) -> u64 {
        match self.a.form() {
            TextForm::Column(a) => less_word(a, &self.b, from),
            TextForm::Constant(a) => less_word(a, &self.b, from),
            TextForm::Run(a) => less_word(a, &self.b, from),
            TextForm::Codes(a) => less_word(a, &self.b, from),
        }
    }
}

/// Whether each of 64 texts stands before another, where the first ones have one form.
fn less_word<A: PlainTexts>(a: &A, b: &TextSide<'_>, from: usize) -> u64
    requires same { length (A.texts a.now) ≡ length b.now }
    requires there { from + 64 ≤ length b.now }
    requires small { from + 64 < 2 ^ 64 }
    ensures { result ≡ less_from (A.texts a.now) b.now from }
{
    match b.form() {
        TextForm::Column(b) => answers(&LessPlain { a, b }, from, 64),
        TextForm::Constant(b) => answers(&LessPlain { a, b }, from, 64),
        TextForm::Run(b) => answers(&LessPlain { a, b }, from, 64),
        TextForm::Codes(b) => answers(&LessPlain { a, b }, from, 64),
    }
}

/// Whether a text stands before another, each side in one form.
#[derive(Drop)]
struct LessPlain<'a, A: PlainTexts, B: PlainTexts> {
    a: &'a A,
    b: &'a B,
    ghost same: { length (A.texts a.now) ≡ length (B.texts b.now) },
}

impl<'a, A: PlainTexts, B: PlainTexts> PlaceTest for LessPlain<'a, A, B> {
    ghost places = { λ t. length (A.texts t.a.now) };

    ghost holds = { λ t. less_at (A.texts t.a.now) (B.texts t.b.now) };

    fn at(&self, i: usize) -> bool {
        self.a.at(i) < self.b.at(i)
    }
}
