//! COPY.
ghost use Rattle.std.specs.Prelude.{◌≡◌, ◌<◌, ◌-◌, ◌^◌, ◌∷◌, [], OnErr, length, nat_lt, true};
ghost use Rattle.cq_binder_rules.specs.Checks.{fault_if};
ghost use Rattle.cq_binder_rules.specs.declared.fault.Fault.TheVariants.{TextTooLong};
ghost use Rattle.cq_model.specs.Sizes.{text_limit};
ghost use Rattle.cq_binder.specs.Sourced.{Loads, LoadsOnce};
ghost use Rattle.cq_binder_queries.specs.Walk.{Passes};

use crate::binding::{BindFault, unwritten};
use cq_binder_queries::Catalog;
use cq_binder_rules::{Bound, Fault, Sources};
use cq_csvio_read::read_rows;
use cq_model::MAX_TEXT;
use cq_values::Text;
use std::alloc::Global;

/// COPY. The source is read once, where the names have no fault.
pub(crate) fn bind_copy<C: Catalog, S: Sources>(
    alloc: Global,
    catalog: &C,
    name: &Text,
    file: &Text,
    files: &mut S,
) -> Result<Bound, BindFault>
    requires { S.failures files.old < 2 ^ 64 - 1 }
    ensures bound { Loads S.Sources files.old files.new C.Catalog catalog.now name.now file.now result }
    ensures files { S.files files.new ≡ S.files files.old }
    ensures reads { LoadsOnce S.Sources files.old files.new C.Catalog catalog.now name.now file.now }
{
    let Some(table) = catalog.table(name.as_str()) else {
        return Err(unwritten(catalog, name.as_str()));
    };
    check_file_name(file)?;
    let bytes = files.read(alloc, file.as_str())?;
    let rows = read_rows(alloc, bytes.as_slice(), table.columns)?;
    Ok(Bound::Insert {
        table: table.number,
        rows,
    })
}

/// A file's name is a text like another: it is not too long.
fn check_file_name(file: &Text) -> Result<(), BindFault>
    ensures passed { Passes (fault_if (nat_lt text_limit (length file.now)) TextTooLong ∷ []) result }
    ensures long { OnErr result (nat_lt text_limit (length file.now) ≡ true) }
{
    if file.as_str().len() > MAX_TEXT {
        return Err(Fault::TextTooLong);
    }
    Ok(())
}
