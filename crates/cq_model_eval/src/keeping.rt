//! WHERE and HAVING on a row.
ghost use Rattle.std.specs.Prelude.{◌≡◌};
ghost use Rattle.cq_model.specs.Meaning.{keeps};
ghost use Rattle.cq_model.specs.Width.{IsNarrowIn};

use crate::eval::narrow_is_exact;
use crate::truth::holds_row;
use cq_model::Cond;
use cq_values::Value;

/// Whether the condition keeps the row: where it is True, and where there is none. No number on the way may be too wide.
pub fn keeps(condition: &Option<Cond>, row: &[Value]) -> bool
    requires { IsNarrowIn condition.now row.now }
    ensures { result ≡ keeps condition.now row.now }
{
    narrow_is_exact();
    match condition {
        Some(condition) => holds_row(condition, row).is_true(),
        None => true,
    }
}
