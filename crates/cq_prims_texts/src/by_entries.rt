//! Conditions over texts by the codes of their entries: each entry is asked once, and then each place by its code.
ghost use Rattle.cq_model.specs.Condition.{liked};
ghost use Rattle.cq_prims_lanes.specs.UpTo.{compared_with};
ghost use Rattle.cq_prims_texts.specs.Named.{truths_of_texts};
ghost use Rattle.cq_values.specs.declared.value.Value.TheVariants.{Text};
ghost use Rattle.std.specs.Bool.{OnTrue};
ghost use Rattle.std.specs.Prelude.{length, map, take, ◌≡◌, ◌≤◌};

use crate::by_codes::set_by_codes;
use crate::entry_tests::{EntryCompared, EntryFits, EntryTest};
use cq_prims_like::Pattern;
use cq_values::{Comparison, Truth};
use cq_vectors_masks::TruthMask;
use cq_vectors_stored::{Codes, TextRun};

/// The truth of the comparison with the text in each place, or an answer that there are too many entries.
pub fn compare_entries(
    comparison: Comparison,
    texts: &Codes<'_>,
    text: &str,
    to: &mut TruthMask,
) -> bool
    ensures { OnTrue result (to.new ≡ compared_with comparison texts.now (Text text.now)) }
{
    ask_entries(&EntryCompared { comparison, text }, texts, to)
}

/// Whether the text of each place fits the pattern, or an answer that there are too many entries.
pub(crate) fn like_entries(texts: &Codes<'_>, pattern: &Pattern<'_>, to: &mut TruthMask) -> bool
    ensures { OnTrue result (to.new ≡ map (λ v. liked v pattern.now) texts.now) }
{
    ask_entries(&EntryFits { pattern }, texts, to)
}

/// The truth of the condition in each place, and Unknown where NULL stands, or an answer that there are too many entries.
fn ask_entries<T: EntryTest>(test: &T, texts: &Codes<'_>, to: &mut TruthMask) -> bool
    ensures { OnTrue result (to.new ≡ map (T.truth test.now) texts.now) }
{
    let (entries, codes) = texts.parts();
    let count = entries.len();
    if count > codes.len() {
        return false;
    }
    let mut truths = [Truth::False; 1024];
    ask_each(test, entries, &mut truths);
    set_by_codes(&truths[..count], codes, texts.nulls(), to);
    true
}

/// The truth of the condition of each entry.
fn ask_each<T: EntryTest>(test: &T, entries: &TextRun, to: &mut [Truth; 1024])
    requires { length entries.now ≤ 1024 }
    ensures { take (length entries.now) to.new ≡ truths_of_texts (T.truth test.now) entries.now }
{
    for entry in 0..entries.len() {
        to[entry] = test.ask(entries.get(entry));
    }
}
