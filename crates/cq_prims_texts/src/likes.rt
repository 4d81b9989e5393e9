//! LIKE over vectors.
ghost use Rattle.cq_model.specs.Condition.{liked};
ghost use Rattle.cq_values.specs.Lent.{owned};
ghost use Rattle.std.specs.Prelude.{◌≡◌, map};

use crate::by_entries::like_entries;
use crate::coded_fits::CodedFits;
use crate::fits_test::FitsTest;
use crate::fits_texts::FitsTexts;
use crate::no_text_test::NoTextTest;
use crate::plain_texts::CodedTexts;
use crate::run_fits::RunFits;
use cq_prims_lanes::set_known_by;
use cq_prims_like::Pattern;
use cq_values::{Lent, Truth};
use cq_vectors::{Form, Vector};
use cq_vectors_masks::{Plane, TruthMask};
use cq_vectors_stored::{Codes, RunTexts};

/// Whether the text of each place fits the pattern, and Unknown where there is no text.
pub fn like(a: &Vector<'_>, pattern: &Pattern<'_>, to: &mut TruthMask)
    ensures { to.new ≡ map (λ v. liked v pattern.now) a.now }
{
    match a.form() {
        Form::Texts(texts) => {
            let nulls = texts.nulls();
            let texts = texts.values();
            set_known_by(&FitsTexts { texts, pattern }, nulls, to)
        }
        Form::Run(texts) => like_run(texts, pattern, to),
        Form::Codes(texts) => {
            if !like_entries(texts, pattern, to) {
                like_codes(texts, pattern, to)
            }
        }
        Form::Constant(value, len) => to.set_all(like_one(value, pattern), *len),
        _ => like_lent(a, pattern, to),
    }
}

/// Whether the text fits the pattern, and Unknown where the value is no text.
pub(crate) fn like_one(value: &Lent<'_>, pattern: &Pattern<'_>) -> Truth
    ensures { result ≡ liked (owned value.now) pattern.now }
{
    match value {
        Lent::Text(text) => {
            if pattern.fits(text) {
                Truth::True
            } else {
                Truth::False
            }
        }
        _ => Truth::Unknown,
    }
}

/// The same for the texts of a run.
fn like_run(part: &RunTexts<'_>, pattern: &Pattern<'_>, to: &mut TruthMask)
    ensures { to.new ≡ map (λ v. liked v pattern.now) part.now }
{
    let (texts, start) = part.parts();
    let _texts = texts.len();
    let len = part.len();
    set_known_by(
        &RunFits {
            texts,
            start,
            len,
            pattern,
        },
        part.nulls(),
        to,
    )
}

/// The same for texts by their codes, where the entries are too many to ask each.
fn like_codes<'a>(texts: &'a Codes<'a>, pattern: &'a Pattern<'a>, to: &mut TruthMask)
    ensures { to.new ≡ map (λ v. liked v pattern.now) texts.now }
{
    let (entries, codes) = texts.parts();
    let nulls = texts.nulls();
    let texts = CodedTexts {
        entries,
        codes,
        nulls,
    };
    set_known_by(&CodedFits { texts, pattern }, nulls, to)
}

/// The same for values of any kind, one by one.
fn like_lent(a: &Vector<'_>, pattern: &Pattern<'_>, to: &mut TruthMask)
    ensures { to.new ≡ map (λ v. liked v pattern.now) a.now }
{
    let mut no_text = Plane::new();
    no_text.set_where(&NoTextTest { a }, a.len());
    set_known_by(&FitsTest { a, pattern }, &no_text, to)
}
