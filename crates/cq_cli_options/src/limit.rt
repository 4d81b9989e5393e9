//! The word N, which limits the rows of a table.
ghost use Rattle.std.specs.Option.{SomeIff};
ghost use Rattle.std.specs.Prelude.{◌≡◌, IfOk, string_bytes};
ghost use Rattle.std.specs.Str.Parse.{digits_value};
ghost use Rattle.cq_cli_options.specs.Limit.{IsLimit, limit_refusal};

use std::alloc::{AllocError, Global};

/// The most that N may be.
pub(crate) const MOST: u64 = 1_073_741_824;

/// The number that these digits stand for, where it is a limit.
pub(crate) fn limit_of(text: &str) -> Option<u64>
    ensures { SomeIff result (IsLimit text.now) (digits_value 10 text.now) }
{
    if text.starts_with('+') {
        return None;
    }
    match text.parse::<u64>() {
        Ok(limit) if 1 <= limit && limit <= MOST => Some(limit),
        _ => None,
    }
}

/// Says that the text is no limit, where clap takes it: clap's numbers may begin with a plus.
pub(crate) fn limit_refused(alloc: Global, text: &str) -> Result<String, AllocError>
    ensures { IfOk result (λ s. string_bytes s ≡ limit_refusal text.now) }
{
    format!(in alloc;
        "error: invalid value '{text}' for '--max-rows <N>': write it in digits alone\n\nFor more information, try '--help'.\n"
    )
}
