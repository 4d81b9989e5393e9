//! Whole numbers as they are written.
ghost use Rattle.std.specs.Prelude.{◌≡◌, ◌<◌, ◌^◌};
ghost use Rattle.cq_binder_rules.specs.Bound.{literal_value};
ghost use Rattle.cq_binder_rules.specs.RowChecks.{fits_column};

use cq_model::STORED_SIZE;
use cq_sql_language::Literal;

/// Whether a column can hold it: stored numbers have 64 bits with a sign.
pub(crate) fn fits_column(literal: &Literal) -> bool
    ensures { result ≡ fits_column literal.now }
{
    if literal.is_negative {
        literal.magnitude <= STORED_SIZE
    } else {
        literal.magnitude < STORED_SIZE
    }
}

/// The number with its sign.
pub(crate) fn literal_number(literal: &Literal) -> i128
    requires { literal.now.magnitude < 2 ^ 127 }
    ensures { result ≡ literal_value literal.now }
{
    let magnitude = literal.magnitude as i128;
    if literal.is_negative {
        -magnitude
    } else {
        magnitude
    }
}
