use crate::{Nulls, PackedNumbers, width_of};
use cq_values::Lent;
use std::alloc::{AllocError, Global};
use std::test::Fail;

/// So many values, of which the last is NULL.
fn null_at_the_end<'a>(alloc: Global, len: usize) -> Result<Vec<Lent<'a>>, AllocError> {
    let mut values: Vec<Lent<'a>> = Vec::new(alloc);
    values.reserve(len)?;
    for i in 0..len {
        let value = if i + 1 == len {
            Lent::Null
        } else {
            Lent::Number(0)
        };
        values.push_reserved(value);
    }
    Ok(values)
}

#[test]
fn numbers_take_the_width_that_is_asked_for_where_they_fit(rt: HostRuntime) -> Result<(), Fail> {
    // the width that is asked for, and the one that 0, 300 and 65,535 take
    let cases = [(8, 16), (16, 16), (32, 32), (64, 64), (17, 16)];
    let numbers = [0, 300, 65_535];
    for (asked, width) in cases {
        let packed = PackedNumbers::of(rt.alloc(), &numbers, asked)?;
        assert_eq!(rt; packed.width(), width, "{asked} are asked for");
        assert!(rt; 2 < packed.len());
        assert_eq!(rt; packed.at(1), 300);
    }
    assert_eq!(rt; width_of(&numbers), 16);
    Ok(())
}

#[test]
fn a_null_is_told_at_the_ends_of_planes(rt: HostRuntime) -> Result<(), Fail> {
    // how many values there are; how many planes
    let cases = [(1, 1), (64, 1), (1_023, 1), (1_024, 1), (1_025, 2)];
    for (len, planes) in cases {
        let values = null_at_the_end(rt.alloc(), len)?;
        assert!(rt; 0 < values.len());
        let nulls = Nulls::of(rt.alloc(), &values)?;
        assert!(rt; nulls.at(values.len() - 1), "the last of {len}");
        assert!(rt; !nulls.at(values.len()), "past the end of {len}");
        assert!(rt; nulls.plane(planes).is_none());
        assert!(rt; nulls.plane(planes - 1).is_some());
    }
    Ok(())
}
