//! What groups have.
use super::Groups;
use crate::open_groups::OpenGroups;
use std::test::Fail;

#[test]
fn groups_are_open_groups_alone(rt: HostRuntime) -> Result<(), Fail> {
    let Groups { open } = Groups::new(rt.alloc());
    let open: OpenGroups = open;
    assert_eq!(rt; open.entries().len(), 0);
    Ok(())
}
