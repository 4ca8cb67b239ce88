//! Numbers of lines, and the texts of errors.

use crate::{BadText, ListError, check_number, read_number};
use std::test::Fail;

#[test]
fn numbers_of_lines(rt: HostRuntime) {
    let table: [(&[u8], Result<(u64, usize), BadText>); 5] = [
        (b"set 1\n", Ok((1, 6))),
        (
            b"set 9223372036854775807\nx",
            Ok((9_223_372_036_854_775_807, 24)),
        ),
        (b"set 0\n", Err(BadText(4))),
        (b"set 9223372036854775808\n", Err(BadText(22))),
        (b"set 1", Err(BadText(5))),
    ];
    for (bytes, read) in table {
        assert_eq!(rt;
            read_number(b"set ", 1, 9_223_372_036_854_775_807, bytes, 0),
            read
        );
    }
    let table: [(&[u8], Result<(), BadText>); 4] = [
        (b"set 1\n", Ok(())),
        (b"set 2\n", Err(BadText(0))),
        (b"set 2", Ok(())),
        (b"list 2\n", Ok(())),
    ];
    for (bytes, checked) in table {
        assert_eq!(rt; check_number(b"set ", 1, bytes), checked);
    }
}

#[test]
fn the_texts_of_errors(rt: HostRuntime) -> Result<(), Fail> {
    let bad = ListError::from(BadText(3)).to_string(rt.alloc())?;
    assert_eq!(rt; bad.as_str(), "bad commit file after 3 bytes");
    let none = ListError::NoMemory.to_string(rt.alloc())?;
    assert_eq!(rt; none.as_str(), "no memory was left");
    Ok(())
}
