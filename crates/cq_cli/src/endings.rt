//! How a run ends.
//!
//! A [`Status`] is put together statement by statement; a [`RunFault`] stops the run. [`exit_of`] makes the program's exit
//! status of the two.
ghost use Rattle.std.specs.Prelude.{◌≡◌};
ghost use Rattle.cq_cli.specs.Running.{both, exit_number};

use thiserror::Error;

/// What became of the statements of a script whose whole output was written.
#[derive(Clone, Copy, Debug, PartialEq, Eq)]
pub enum Status {
    AllAccepted,
    SomeRefused,
}

impl Status {
    /// The status of two parts of a script.
    pub fn and(self, other: Status) -> Status
        ensures { result ≡ both self other }
    {
        match self {
            Status::AllAccepted => other,
            Status::SomeRefused => Status::SomeRefused,
        }
    }
}

/// Why a run stopped.
#[derive(Clone, Copy, Debug, PartialEq, Eq, Error)]
pub enum RunFault {
    #[error("output failed")]
    Output,
}

/// The exit status of the program.
pub fn exit_of(ended: &Result<Status, RunFault>) -> u8
    ensures { result ≡ exit_number ended.now }
{
    match ended {
        Ok(Status::AllAccepted) => 0,
        Ok(Status::SomeRefused) => 1,
        Err(RunFault::Output) => 3,
    }
}
