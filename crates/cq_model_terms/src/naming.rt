//! Where columns go when a tree is renamed.
//!
//! A [`Naming`] lends the places that are kept, so it is copied freely. Among places that are kept a column is looked for
//! from the first on, so each look-up costs as many steps as there are; the other two cost one.
ghost use Rattle.std.specs.Prelude.{◌≡◌};
ghost use Rattle.cq_model_terms.specs.Naming.{place_by};
ghost use Rattle.cq_model_terms.specs.Places.{place_in};

/// Each column stays, goes to its place among those that are kept, or has lost so many that stood before it.
#[derive(Clone, Copy)]
pub enum Naming<'a> {
    Same,
    Among(&'a [usize]),
    Behind(usize),
}

/// The new place of a column.
pub(crate) fn place_by(naming: Naming<'_>, place: usize) -> usize
    ensures { result ≡ place_by naming.entry place }
{
    match naming {
        Naming::Same => place,
        Naming::Among(kept) => place_in(kept, place),
        Naming::Behind(before) => place.saturating_sub(before),
    }
}

/// Where a column stands among those that are kept, and behind them all where it is none of them.
pub fn place_in(kept: &[usize], place: usize) -> usize
    ensures { result ≡ place_in kept.now place }
{
    let mut at = 0;
    for column in kept {
        if *column == place {
            return at;
        }
        at += 1;
    }
    at
}
