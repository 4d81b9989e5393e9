//! Lists of columns and of names: what stands in them twice, and how long they may be; and clauses that may not be there.
ghost use Rattle.std.specs.Prelude.{◌≡◌, ◌∷◌, []};
ghost use Rattle.std.specs.List.{list_any};
ghost use Rattle.cq_values.specs.Texts.{is_text};
ghost use Rattle.cq_binder_rules.specs.Checks.{too_long};
ghost use Rattle.cq_binder_rules.specs.Refusal.{column_checks};
ghost use Rattle.cq_binder_rules.specs.ViewChecks.{no_clause};
ghost use Rattle.cq_binder_queries.specs.Walk.{Passes};

use cq_binder_rules::Fault;
use cq_values::{ColumnDef, Text};

/// A list of columns or of items has at most so many entries.
const MAX_ENTRIES: usize = 64;

/// Refuses a name that an earlier column has.
pub fn check_names(columns: &[ColumnDef]) -> Result<(), Fault>
    ensures { Passes (column_checks [] columns.now) result }
{
    for (i, column) in columns.iter().enumerate() {
        if is_declared(&columns[..i], column) {
            return Err(Fault::NameTaken);
        }
    }
    Ok(())
}

/// Refuses a list that is too long.
pub fn check_length(entries: usize) -> Result<(), Fault>
    ensures { Passes (too_long entries ∷ []) result }
{
    if MAX_ENTRIES < entries {
        Err(Fault::LimitExceeded)
    } else {
        Ok(())
    }
}

/// Refuses a clause that is there and that a view may not have.
pub(crate) fn refuse_clause(is_there: bool) -> Result<(), Fault>
    ensures { Passes (no_clause is_there ∷ []) result }
{
    if is_there {
        Err(Fault::ClauseInView)
    } else {
        Ok(())
    }
}

fn is_declared(columns: &[ColumnDef], column: &ColumnDef) -> bool
    ensures { result ≡ list_any (λ c. is_text c.name column.now.name) columns.now }
{
    let name = column.name.as_str();
    columns.iter().any(|c| c.name.as_str() == name)
}

/// Whether the name stands among these.
pub fn is_named(names: &[Text], name: &str) -> bool
    ensures { result ≡ list_any (λ n. is_text n name.now) names.now }
{
    names.iter().any(|n| n.as_str() == name)
}
