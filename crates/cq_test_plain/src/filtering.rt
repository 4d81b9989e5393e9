//! WHERE and HAVING.
ghost use Rattle.std.specs.Prelude.{◌≡◌, IfErr, IfOk, filter};
ghost use Rattle.cq_model_bags.specs.Bag.{once_each};
ghost use Rattle.cq_model.specs.Meaning.{keeps};
ghost use Rattle.cq_test_plain.specs.Faults.{Tells};
ghost use Rattle.cq_test_plain.specs.Wide.{IsWideAmong};

use crate::evaluation::passes;
use crate::fault::PlainFault;
use cq_model::Cond;
use cq_values::{Row, copy_row};
use std::alloc::Global;

/// The rows that make the condition True.
pub(crate) fn filtered(
    alloc: Global,
    condition: &Option<Cond>,
    rows: &[Row],
) -> Result<Vec<Row>, PlainFault>
    ensures ok { IfOk result (λ passing. passing.items ≡ filter (keeps condition.now) rows.now) }
    ensures fault { IfErr result (Tells (IsWideAmong condition.now (once_each rows.now)) ⊥) }
{
    let mut passing = Vec::new(alloc);
    for row in rows {
        let values = row.as_slice();
        if passes(alloc, condition, values)? {
            passing.push(copy_row(alloc, values)?)?;
        }
    }
    Ok(passing)
}
