//! Whether texts fit a pattern of which they have to have a run.
ghost use Rattle.cq_prims_like.specs.Patterns.{FindsInEach, answers_of};
ghost use Rattle.cq_prims_texts.specs.Fits.{fits_at};
ghost use Rattle.cq_vectors_stored.specs.Columns.{texts_of};
ghost use Rattle.std.proofs.Props.{props};
ghost use Rattle.std.specs.Prelude.{◌≡◌, IfSome, length};

use cq_prims_like::{Sought, first_places};
use cq_vectors_masks::{PlaceTest, answers};

/// The answers for 64 texts, the first in the lowest bit, if they are short.
pub(crate) fn word_by_run(sought: &Sought<'_>, texts: &[&str]) -> Option<u64>
    requires { length texts.now ≡ 64 }
    ensures { IfSome result (λ word. word ≡ answers_of sought.now.pattern (texts_of texts.now) 0) }
{
    let places = first_places(sought.run(), texts)?;
    let test = HavingTexts {
        sought,
        texts,
        places,
    };
    Some(answers(&test, 0, 64))
}

/// Whether the text of a place fits the pattern, where the first place of the run is known in each text.
#[derive(Drop)]
struct HavingTexts<'s, 'p, 't> {
    sought: &'s Sought<'p>,
    texts: &'s [&'t str],
    places: [Option<usize>; 64],
    ghost many: { length texts.now ≡ 64 },
    ghost found: { FindsInEach sought.now.run (texts_of texts.now) places } by { Prim.hlevel props },
}

impl PlaceTest for HavingTexts<'_, '_, '_> {
    ghost places = { λ t. length t.texts.now };

    ghost holds = { λ t. fits_at t.sought.now.pattern (texts_of t.texts.now) };

    fn at(&self, i: usize) -> bool {
        let texts = self.texts;
        self.sought.fits(texts[i], self.places[i])
    }
}
