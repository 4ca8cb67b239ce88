use super::*;
use hb_cell::CellError;
use hb_wire::Blob;
use std::test::Fail;

/// Two cells with their numbers: row `r`, family `f`, qualifier `q`, timestamp 5, a value `v`, sequence number 1; and
/// row `s`, family `f`, no qualifier, timestamp 6, a marker of a family, sequence number 128.
const CONTENT: [u8; 50] = [
    0, 0, 0, 0x0f, 0, 0, 0, 1, 0, 1, b'r', 1, b'f', b'q', 0, 0, 0, 0, 0, 0, 0, 5, 4, b'v', 1, 0, 0,
    0, 0x0e, 0, 0, 0, 1, 0, 1, b's', 1, b'f', 0, 0, 0, 0, 0, 0, 0, 6, 14, b'w', 0x8f, 0x80,
];

#[test]
fn reads_cells(rt: HostRuntime) -> Result<(), Fail> {
    let cells = cells_of_block(rt.alloc(), &CONTENT, 100, true)?;
    assert_eq!(rt; cells.len(), 2);
    let second = cells.get(1).map(|cell| (cell.ts, cell.seq));
    assert_eq!(rt; second, Some((6, 128)));
    assert_eq!(rt; cells_of_block(rt.alloc(), &[], 100, true)?.len(), 0);
    Ok(())
}

#[test]
fn reads_cells_without_numbers(rt: HostRuntime) -> Result<(), Fail> {
    let cells = cells_of_block(rt.alloc(), &CONTENT[..24], 100, false)?;
    assert_eq!(rt; cells.len(), 1);
    let first = cells.get(0).map(|cell| (cell.ts, cell.seq));
    assert_eq!(rt; first, Some((5, 0)));
    Ok(())
}

/// A byte of the content that is exchanged, how much of the content is left, and the fault that is then found.
const FAULTS: [(usize, u8, usize, u64, CellError); 5] = [
    (0, 0, 49, 125, CellError::Short(1)),
    (0, 0, 24, 100, CellError::Short(1)),
    (46, 15, 50, 125, CellError::Kind(15)),
    (9, 0, 50, 100, CellError::RowLength),
    (24, 0x90, 50, 100, CellError::Sequence),
];

#[test]
fn finds_the_first_fault(rt: HostRuntime) -> Result<(), Fail> {
    for (place, byte, len, at, cause) in FAULTS {
        let mut content = CONTENT;
        assert!(rt; place < 50 && len <= 50);
        content[place] = byte;
        let found = cells_of_block(rt.alloc(), &content[..len], 100, true).err();
        assert_eq!(rt; found, Some(HFileError::Cell { at, cause }));
    }
    Ok(())
}

/// The header of a data block of 25 bytes, and one with room for a checksum.
const HEADER: [u8; 33] = [
    b'D', b'A', b'T', b'A', b'B', b'L', b'K', b'*', 0, 0, 0, 0x19, 0, 0, 0, 0x19, 255, 255, 255,
    255, 255, 255, 255, 255, 0, 0, 0, 0x40, 0, 0, 0, 0, 0x3a,
];

#[test]
fn blocks_both_ways(rt: HostRuntime) -> Result<(), Fail> {
    let mut out = Blob::copy_of(rt.alloc(), b"x")?;
    write_block(&mut out, Magic::Data, &CONTENT[..25], -1)?;
    assert_eq!(rt; out.len(), 59);
    assert_eq!(rt; &out.as_slice()[1..34], HEADER.as_slice());
    assert_eq!(rt; &out.as_slice()[34..], &CONTENT[..25]);
    let header = read_header(&out.as_slice()[1..], 7)?;
    assert_eq!(rt;
        (header.magic, header.on_disk, header.uncompressed),
        (Magic::Data, 25, 25)
    );
    assert_eq!(rt;
        (header.previous, header.checksum, header.per),
        (-1, 0, 16384)
    );
    for magic in [
        Magic::Leaf,
        Magic::Intermediate,
        Magic::Root,
        Magic::Meta,
        Magic::Info,
    ] {
        let mut out = Blob::copy_of(rt.alloc(), b"")?;
        write_block(&mut out, magic, &[7; 70000], 5)?;
        assert_eq!(rt;
            read_header(out.as_slice(), 0).map(|header| header.magic),
            Ok(magic)
        );
    }
    Ok(())
}

/// A byte of the header that is exchanged, how many bytes stand behind the header, and what is answered: the size on
/// disk, or the fault.
const HEADERS: [(usize, u8, usize, Result<u32, HFileError>); 12] = [
    (11, 0x1d, 29, Ok(29)),
    (11, 0x1e, 30, Err(HFileError::Size(0))),
    (11, 0x19, 24, Err(HFileError::Size(0))),
    (11, 0x19, 26, Ok(25)),
    (0, b'E', 25, Err(HFileError::Magic(0))),
    (7, b'c', 25, Err(HFileError::Magic(0))),
    (24, 3, 25, Err(HFileError::Checksum(3))),
    (24, 255, 0, Err(HFileError::Checksum(255))),
    (24, 1, 25, Err(HFileError::Size(0))),
    (15, 0x1a, 25, Err(HFileError::Size(0))),
    (32, 0x3b, 25, Err(HFileError::Size(0))),
    (8, 255, 25, Err(HFileError::Size(0))),
];

#[test]
fn reads_headers(rt: HostRuntime) -> Result<(), Fail> {
    for (place, byte, behind, answer) in HEADERS {
        let mut header = HEADER;
        assert!(rt; place < 33 && behind <= 50);
        header[place] = byte;
        let mut bytes = Blob::copy_of(rt.alloc(), &header)?;
        bytes.add(&CONTENT[..behind])?;
        let found = read_header(bytes.as_slice(), 0).map(|header| header.on_disk);
        assert_eq!(rt; found, answer);
    }
    assert_eq!(rt; read_header(&HEADER[..32], 9), Err(HFileError::Size(9)));
    assert_eq!(rt; read_header(&HEADER[..7], 9), Err(HFileError::Magic(9)));
    Ok(())
}
