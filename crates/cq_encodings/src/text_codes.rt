//! Texts as their numbers among the different ones, none of which is NULL.
ghost use Rattle.std.specs.Prelude.{[], IfOk, IfSome, length, true, ◌∷◌, ◌≡◌, ◌≤◌};
ghost use Rattle.cq_encodings.specs.Texts.{AreTextCodes, IsFirst, text_values};
ghost use Rattle.cq_vectors_stored.specs.Columns.{texts_of};

use crate::dict::{Dict, gives_up, run_of};
use crate::known_texts::KnownTexts;
use cq_encodings_plain::{FixedWidth, Nulls, PackedNumbers};
use std::alloc::{AllocError, Global};

/// None where there is no text, or more of them are different than is worth it: more than `most`, or more than half of
/// the first 2,000.
pub(crate) fn dict_of_texts(
    alloc: Global,
    texts: &[&str],
    most: usize,
) -> Result<Option<Dict>, AllocError>
    ensures { IfOk result (λ found. IfSome found (λ dict. dict ≡ text_values (texts_of texts.now))) }
{
    match coded_in::<Vec<u8>>(alloc, texts, most.min(1 << 8))? {
        None if most > 1 << 8 => {}
        found => return Ok(found),
    }
    match coded_in::<Vec<u16>>(alloc, texts, most.min(1 << 16))? {
        None if most > 1 << 16 => {}
        found => return Ok(found),
    }
    coded_in::<Vec<u32>>(alloc, texts, most)
}

/// The same, with numbers of one width.
fn coded_in<W: FixedWidth>(
    alloc: Global,
    texts: &[&str],
    most: usize,
) -> Result<Option<Dict>, AllocError>
    ensures { IfOk result (λ found. IfSome found (λ dict. dict ≡ text_values (texts_of texts.now))) }
{
    let Some(first) = texts.first() else {
        return Ok(None);
    };
    let mut known = KnownTexts::new(alloc, *first)?;
    let mut codes = W::with_room(alloc, texts.len())?;
    if !write_codes(texts, most, &mut known, &mut codes)? {
        return Ok(None);
    }
    let Some(entries) = run_of(alloc, known.texts())? else {
        return Ok(None);
    };
    let nulls = Nulls::clear(alloc, texts.len())?;
    let codes = PackedNumbers::from_widths(codes.into_widths());
    Ok(Some(Dict::of_parts(entries, codes, nulls)))
}

/// Writes the number of each text among the different ones. Tells whether all could be written.
fn write_codes<'a, W: FixedWidth>(
    texts: &[&'a str],
    most: usize,
    known: &mut KnownTexts<'a>,
    to: &mut W,
) -> Result<bool, AllocError>
    requires first { IsFirst known.old (texts_of texts.now) }
    requires empty { W.numbers to.old ≡ [] }
    requires room { length texts.now ≤ W.room to.old }
    ensures { IfOk result (λ all. all ≡ true → AreTextCodes known.new (W.numbers to.new) (texts_of texts.now)) }
{
    for i in 0..texts.len() {
        let code = known.number_of(texts[i])?;
        if !to.push_number(code as u64) {
            return Ok(false);
        }
        if gives_up(i + 1, known.len(), most) {
            return Ok(false);
        }
    }
    Ok(true)
}
