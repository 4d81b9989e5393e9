//! What open groups have.
use super::OpenGroups;
use crate::group::Group;
use cq_values::Row;
use indexmap::IndexMap;
use std::test::Fail;

#[test]
fn open_groups_are_a_map_alone(rt: HostRuntime) -> Result<(), Fail> {
    let OpenGroups { groups } = OpenGroups::new(rt.alloc());
    let groups: IndexMap<Row, Group> = groups;
    assert_eq!(rt; groups.len(), 0);
    Ok(())
}
