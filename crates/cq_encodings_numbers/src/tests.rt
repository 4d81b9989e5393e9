use crate::Packed;
use cq_values::Lent;
use std::test::Fail;

#[test]
fn offsets_take_the_width_of_the_greatest(rt: HostRuntime) -> Result<(), Fail> {
    // how far the greatest of two numbers lies above the least, and the width that it takes
    let cases = [(255, 8), (256, 16), (65_535, 16), (65_536, 32)];
    for (range, width) in cases {
        let values = [Lent::Number(-7), Lent::Null, Lent::Number(range - 7)];
        match Packed::of(rt.alloc(), &values)? {
            Some(packed) => assert_eq!(rt; packed.parts().2.width(), width, "{range} apart"),
            None => assert!(rt; false, "{range} apart"),
        }
    }
    Ok(())
}
