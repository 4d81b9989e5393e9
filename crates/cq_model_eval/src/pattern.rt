//! LIKE: patterns of texts.
ghost use Rattle.std.specs.Prelude.{◌∷◌, ◌≡◌, MatchOption, []};
ghost use Rattle.std.specs.Str.{chars};
ghost use Rattle.cq_model_eval.specs.PatternPrefix.{prefix_match, seen};
ghost use Rattle.cq_model_eval.specs.Laws.{LikeDecides};
ghost use Rattle.cq_model.specs.Like.{fits_some_end, like};

/// What a text begins with, where the characters of a pattern before its first `%` are matched one by one.
#[derive(Clone, Copy)]
enum PrefixMatch<'a> {
    Misfit,
    Whole,
    /// What is left of the pattern and of the text.
    Open(&'a str, &'a str),
}

/// Whether the text fits the pattern: `%` stands for any characters and `_` for one. It takes no memory, and at most as
/// many steps as the text's length times the pattern's.
#[tactic(auto, using(crate::proofs::Prefixes::like_prefix))]
pub fn like(pattern: &str, text: &str) -> bool
    ensures { result ≡ like (chars pattern.now) (chars text.now) }
{
    match match_prefix(pattern, text) {
        PrefixMatch::Misfit => false,
        PrefixMatch::Whole => true,
        PrefixMatch::Open(signs, rest) => some_end_fits(signs, rest),
    }
}

fn some_end_fits(pattern: &str, text: &str) -> bool
    ensures { result ≡ fits_some_end (chars pattern.now) (chars text.now) }
{
    let (mut pattern, mut text) = (pattern, text);
    loop {
        if pattern.is_empty() {
            return true;
        }
        match match_prefix(pattern, text) {
            PrefixMatch::Whole => return true,
            PrefixMatch::Open(signs, rest) => {
                pattern = signs;
                text = rest;
            }
            PrefixMatch::Misfit => match first_char(text) {
                Some((_, rest)) => text = rest,
                None => return false,
            },
        }
    }
}

fn match_prefix<'a>(pattern: &'a str, text: &'a str) -> PrefixMatch<'a>
    ensures { seen result ≡ prefix_match (chars pattern.now) (chars text.now) }
{
    let (mut pattern, mut text) = (pattern, text);
    while let Some((sign, signs)) = first_char(pattern) {
        if sign == '%' {
            return PrefixMatch::Open(signs, text);
        }
        match first_char(text) {
            Some((letter, rest)) if sign == '_' || letter == sign => {
                pattern = signs;
                text = rest;
            }
            _ => return PrefixMatch::Misfit,
        }
    }
    match first_char(text) {
        Some(_) => PrefixMatch::Misfit,
        None => PrefixMatch::Whole,
    }
}

fn first_char(text: &str) -> Option<(char, &str)>
    ensures { MatchOption result (chars text.now ≡ []) (λ x. chars text.now ≡ x.0 ∷ chars x.1.now) }
{
    let mut letters = text.chars();
    let first = letters.next()?;
    Some((first, letters.as_str()))
}

/// The test for LIKE decides the relation that defines it.
pub fn like_decides()
    ensures { LikeDecides }
{}
