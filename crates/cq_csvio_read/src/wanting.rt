//! Want of memory while a file is read.
ghost use Rattle.std.specs.Prelude.{◌≡◌};
ghost use Rattle.cq_binder_rules.specs.declared.fault.Fault.TheVariants.{Memory};

use cq_binder_rules::Fault;

/// No memory for a record. The bytes of a file lie in memory, so that `csv`'s reader fails for want of it alone.
#[derive(Clone, Copy, Debug)]
pub(crate) struct WantsMemory;

impl From<csv::Error> for WantsMemory {
    fn from(_e: csv::Error) -> WantsMemory {
        WantsMemory
    }
}

impl From<WantsMemory> for Fault {
    ghost from_gives = { λ _ e. e ≡ Memory };

    fn from(_e: WantsMemory) -> Fault {
        Fault::Memory
    }
}
