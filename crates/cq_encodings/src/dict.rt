//! Texts of which few are different.
ghost use Rattle.std.specs.Option.{IfNone};
ghost use Rattle.std.specs.Prelude.{
  List,
  ℕ,
  [],
  IfOk,
  IfSome,
  length,
  map,
  slice_index_or,
  true,
  ◌<◌,
  ◌∷◌,
  ◌≡◌,
  ◌≤◌,
};
ghost use Rattle.std.specs.Simd.Lanes.{zip2};
ghost use Rattle.cq_encodings.specs.Dict.{
  AreCodes,
  AreCodesOf,
  IsCode,
  IsDict,
  AddsNoText,
  IsFirstText,
  coded,
  different_texts,
  with_text,
};
ghost use Rattle.cq_values.specs.Lent.{owned};
ghost use Rattle.cq_values.specs.declared.value.Value.TheVariants.{Text};
ghost use Rattle.cq_vectors_stored.specs.Columns.{text_unless, texts_of};

use crate::known_texts::KnownTexts;
use cq_encodings_plain::{Encoded, FixedWidth, Nulls, PackedNumbers};
use cq_values::Lent;
use cq_vectors_stored::TextRun;
use std::alloc::{AllocError, Global};
use std::marker::Model;

/// Texts as their numbers among the different ones, which stand in the order of their first places, and flags where
/// NULL stands: there the number is 0.
#[derive(Drop)]
pub struct Dict {
    entries: TextRun,
    codes: PackedNumbers,
    nulls: Nulls,
}

impl Model for Dict {
    ghost use Rattle.std.specs.Prelude.{List};
    ghost use Rattle.std.specs.Simd.Lanes.{zip2};
    ghost use Rattle.cq_encodings.specs.Dict.{IsDict, coded};
    ghost use Rattle.cq_values.specs.declared.value.Value.{Value as Datum};
    ghost use Rattle.cq_vectors_stored.specs.Columns.{text_unless};

    ghost Value = { List Datum };

    ghost view = { λ d. zip2 text_unless (coded d.entries d.codes) d.nulls };

    ghost invariant = { λ d. IsDict d.entries d.codes d.nulls };
}

impl Dict {
    /// None where one of the values is neither a text nor NULL, none is a text, or more texts are different than is
    /// worth it: more than `most`, or more than half of the first 2,000.
    pub fn of(alloc: Global, values: &[Lent<'_>], most: usize) -> Result<Option<Dict>, AllocError>
        ensures { IfOk result (λ found. IfSome found (λ dict. dict ≡ map owned values.now)) }
    {
        match dict_in::<Vec<u8>>(alloc, values, most.min(1 << 8))? {
            None if most > 1 << 8 => {}
            found => return Ok(found),
        }
        match dict_in::<Vec<u16>>(alloc, values, most.min(1 << 16))? {
            None if most > 1 << 16 => {}
            found => return Ok(found),
        }
        dict_in::<Vec<u32>>(alloc, values, most)
    }

    /// The different texts, the numbers of all, and the flags.
    pub(crate) fn of_parts(entries: TextRun, codes: PackedNumbers, nulls: Nulls) -> Dict
        requires { IsDict entries codes nulls }
        ensures { result ≡ zip2 text_unless (coded entries codes) nulls }
    {
        Dict {
            entries,
            codes,
            nulls,
        }
    }

    /// The different texts, the numbers and the flags, for loops: the number is 0 where NULL stands.
    pub fn parts(&self) -> (&TextRun, &PackedNumbers, &Nulls)
        ensures whole { self.now ≡ zip2 text_unless (coded result.0.now result.1.now) result.2.now }
        ensures parts { AreCodes result.0.now result.1.now result.2.now }
        ensures different { result.0.now ≡ different_texts self.now }
    {
        (&self.entries, &self.codes, &self.nulls)
    }

    /// How many texts are different.
    pub fn different(&self) -> usize
        ensures { result ≡ length (different_texts self.now) }
    {
        self.entries.len()
    }
}

impl Encoded for Dict {
    ghost values = { λ d. d };

    fn len(&self) -> usize {
        self.codes.len()
    }

    fn value_at(&self, place: usize) -> Lent<'_> {
        if place >= self.codes.len() || self.nulls.at(place) {
            return Lent::Null;
        }
        Lent::Text(text_at(&self.entries, self.codes.at(place)))
    }
}

/// The text of a number, and an empty one where there is none.
fn text_at(entries: &TextRun, code: u64) -> &str
    ensures { result.now ≡ slice_index_or entries.now code [] }
{
    let code = code as usize;
    if code < entries.len() {
        entries.get(code)
    } else {
        ""
    }
}

/// The same, with numbers of one width.
fn dict_in<W: FixedWidth>(
    alloc: Global,
    values: &[Lent<'_>],
    most: usize,
) -> Result<Option<Dict>, AllocError>
    ensures { IfOk result (λ found. IfSome found (λ dict. dict ≡ map owned values.now)) }
{
    let Some(first) = first_text(values) else {
        return Ok(None);
    };
    let mut known = KnownTexts::new(alloc, first)?;
    let mut codes = W::with_room(alloc, values.len())?;
    if !write_codes(values, most, &mut known, &mut codes)? {
        return Ok(None);
    }
    let Some(entries) = run_of(alloc, known.texts())? else {
        return Ok(None);
    };
    let nulls = Nulls::of(alloc, values)?;
    Ok(Some(Dict {
        entries,
        codes: PackedNumbers::from_widths(codes.into_widths()),
        nulls,
    }))
}

/// Writes the number of each value among the different texts, 0 for NULL. Tells whether all could be written.
fn write_codes<'a, W: FixedWidth>(
    values: &[Lent<'a>],
    most: usize,
    known: &mut KnownTexts<'a>,
    to: &mut W,
) -> Result<bool, AllocError>
    requires first { IsFirstText known.old values.now }
    requires empty { W.numbers to.old ≡ [] }
    requires room { length values.now ≤ W.room to.old }
    ensures { IfOk result (λ all. all ≡ true → AreCodesOf known.new (W.numbers to.new) values.now) }
{
    let mut seen = 0;
    for value in values {
        let Some(code) = code_of(known, value)? else {
            return Ok(false);
        };
        if !to.push_number(code) {
            return Ok(false);
        }
        seen += 1;
        if gives_up(seen, known.len(), most) {
            return Ok(false);
        }
    }
    Ok(true)
}

/// The first text: with it alone to begin with, the different texts are the same.
fn first_text<'a>(values: &[Lent<'a>]) -> Option<&'a str>
    ensures { IfSome result (λ text. IsFirstText (text.now ∷ []) values.now) }
{
    for value in values {
        match text_in(value) {
            Some(text) => return Some(text),
            None => {}
        }
    }
    None
}

fn text_in<'a>(value: &Lent<'a>) -> Option<&'a str>
    ensures some { IfSome result (λ text. owned value.now ≡ Text text.now) }
    ensures none { IfNone result (AddsNoText (owned value.now)) }
{
    match value {
        Lent::Text(text) => Some(text),
        _ => None,
    }
}

/// Whether more texts are different than is worth it.
pub(crate) fn gives_up(seen: usize, different: usize, most: usize) -> bool {
    different > most || seen == 2_000 && different > 1_000
}

/// The number of a value among the texts that are known, which it is now one of.
fn code_of<'a>(known: &mut KnownTexts<'a>, value: &Lent<'a>) -> Result<Option<u64>, AllocError>
    requires { 0 < length known.old }
    ensures { IfOk result (λ found. IfSome found (λ code. IsCode value.now code known.old known.new)) }
{
    match value {
        Lent::Text(text) => Ok(Some(known.number_of(text)? as u64)),
        Lent::Null => Ok(Some(0)),
        _ => Ok(None),
    }
}

/// The texts one behind the other, or None where they do not fit one run.
pub(crate) fn run_of(alloc: Global, texts: &[&str]) -> Result<Option<TextRun>, AllocError>
    ensures { IfOk result (λ found. IfSome found (λ run. run ≡ texts_of texts.now)) }
{
    let mut run = TextRun::new(alloc);
    for text in texts {
        if !run.has_room(text) {
            return Ok(None);
        }
        run.push(text)?;
    }
    Ok(Some(run))
}
