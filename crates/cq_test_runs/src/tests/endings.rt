//! The exit statuses that runs end with.
use cq_cli::{RunFault, Status, exit_of};

#[test]
fn a_run_ends_with_0_1_or_3(rt: HostRuntime) {
    assert_eq!(rt; exit_of(&Ok(Status::AllAccepted)), 0);
    assert_eq!(rt; exit_of(&Ok(Status::SomeRefused)), 1);
    assert_eq!(rt; exit_of(&Err(RunFault::Output)), 3);
}
