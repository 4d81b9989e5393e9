//! The program as a library: scripts from bytes to bytes.
//!
//! [`run`] writes the answer of each statement before the next one runs. What it writes is the output of the script's
//! outcomes, or a prefix of it where the [`Sink`] failed.
#![tactic(auto)]

mod endings;
mod laws;
mod no_sources;
mod printing;
mod program;
mod putting;
mod running;
mod sink;

pub use cq_engine::{Limits, SourceFault, Sources};
pub use endings::{RunFault, Status, exit_of};
pub use laws::same_output;
pub use no_sources::NoSources;
pub use program::run_program;
pub use running::run;
pub use sink::{Sink, Writer};
