use super::*;
use std::test::Fail;

#[test]
fn selects_by_size(rt: HostRuntime) -> Result<(), Fail> {
    let params = SelectParams {
        ratio_tenths: 10,
        min: 3,
        max: 5,
        min_size: 10,
    };
    for (sizes, range) in [
        ([100, 50, 23, 12, 12].as_slice(), Some((2, 5))),
        ([100, 25, 12, 12].as_slice(), None),
        ([7, 6, 5, 4, 3, 2, 1].as_slice(), Some((0, 5))),
        ([].as_slice(), None),
        ([u64::MAX, u64::MAX, u64::MAX].as_slice(), Some((0, 3))),
        ([25, 12, 12].as_slice(), None),
        ([24, 12, 12].as_slice(), Some((0, 3))),
        ([10, 1, 1, 1].as_slice(), Some((0, 4))),
        ([11, 1, 1, 1].as_slice(), Some((1, 4))),
    ] {
        assert_eq!(rt; select(sizes, &params), range);
    }
    Ok(())
}
