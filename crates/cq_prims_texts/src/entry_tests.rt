//! Conditions of the entries of texts, each asked once for all places that have the entry.
ghost use Rattle.cq_model.specs.Condition.{liked};
ghost use Rattle.cq_values.specs.Comparison.{compared};
ghost use Rattle.cq_values.specs.declared.truth.Truth.{Truth as Known};
ghost use Rattle.cq_values.specs.declared.truth.Truth.TheVariants.{Unknown};
ghost use Rattle.cq_values.specs.declared.value.Value.{Value};
ghost use Rattle.cq_values.specs.declared.value.Value.TheVariants.{Null, Text};
ghost use Rattle.std.specs.Prelude.{refl, ◌≡◌};

use cq_model_eval::compare;
use cq_prims_like::Pattern;
use cq_values::{Comparison, Lent, Truth};

/// A condition of a text.
pub(crate) trait EntryTest {
    ghost truth: { Self → Value → Known };

    /// It is not known of NULL.
    ghost unknown: { (test : Self) → truth test Null ≡ Unknown };

    fn ask(&self, entry: &str) -> Truth
        ensures { result ≡ truth self.now (Text entry.now) };
}

/// The comparison with a text.
#[derive(Drop)]
pub(crate) struct EntryCompared<'a> {
    pub(crate) comparison: Comparison,
    pub(crate) text: &'a str,
}

impl EntryTest for EntryCompared<'_> {
    ghost truth = { λ t value. compared t.comparison value (Text t.text.now) };

    ghost unknown = { λ t. refl };

    fn ask(&self, entry: &str) -> Truth {
        compare(self.comparison, &Lent::Text(entry), &Lent::Text(self.text))
    }
}

/// Whether a text fits the pattern.
#[derive(Drop)]
pub(crate) struct EntryFits<'a> {
    pub(crate) pattern: &'a Pattern<'a>,
}

impl EntryTest for EntryFits<'_> {
    ghost truth = { λ t value. liked value t.pattern.now };

    ghost unknown = { λ t. refl };

    fn ask(&self, entry: &str) -> Truth {
        if self.pattern.fits(entry) {
            Truth::True
        } else {
            Truth::False
        }
    }
}
