//! Lines of regions, read and written.

use crate::region_line::write_region;
use crate::regions::{are_regions, read_regions};
use commit_line::ListError;
use hb_names::TableName;
use hb_wire::Blob;
use std::test::Fail;

#[test]
fn regions_and_their_lines(rt: HostRuntime) -> Result<(), Fail> {
    let table = TableName::read(rt.alloc(), b"t")?;
    let bytes = b"region 7 open - 6d\nregion 6 split 6d -\nend\n".as_slice();
    let (regions, end) = read_regions(rt.alloc(), &table, bytes, 0)?;
    assert_eq!(rt; end, 39);
    assert!(rt; are_regions(&table, regions.as_slice()));
    let mut out = Blob::copy_of(rt.alloc(), b"")?;
    for region in regions.as_slice() {
        write_region(region, &mut out)?;
    }
    assert_eq!(rt;
        out.as_slice(),
        b"region 7 open - 6d\nregion 6 split 6d -\n".as_slice()
    );
    Ok(())
}

#[test]
fn an_id_below_with_the_same_start(rt: HostRuntime) -> Result<(), Fail> {
    let table = TableName::read(rt.alloc(), b"t")?;
    let bytes = b"region 7 open 6d -\nregion 6 open 6d -\n".as_slice();
    match read_regions(rt.alloc(), &table, bytes, 0) {
        Ok(_) => assert!(rt; false),
        Err(error) => assert_eq!(rt; error, ListError::BadList(35)),
    }
    Ok(())
}
