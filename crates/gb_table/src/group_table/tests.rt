use crate::group_table::GroupTable;
use std::test::Fail;

#[test]
fn keys_are_numbered(rt: HostRuntime) -> Result<(), Fail> {
    let mut table = GroupTable::new(rt.alloc())?;
    assert_eq!(rt; table.number_of(7u64, 1)?, 0);
    assert_eq!(rt; table.number_of(8u64, 1)?, 1);
    assert_eq!(rt; table.number_of(7u64, 1)?, 0);
    assert_eq!(rt; table.len(), 2);
    Ok(())
}
