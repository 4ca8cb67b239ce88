use super::*;
use hb_cell::{Cell, CellError};
use hb_wire::{Blob, Items, NoMemory, put_u32, put_u64};
use hfile_block::{HFileError, Magic, write_block};
use hfile_meta::{Trailer, write_trailer};
use std::alloc::Global;
use std::test::Fail;

/// A stored cell with its number: row `r`, family `f`, qualifier `q`, timestamp 5, a value `v`, sequence number 1.
const CELL: &[u8; 25] = b"\0\0\0\x0f\0\0\0\x01\0\x01r\x01fq\0\0\0\0\0\0\0\x05\x04v\x01";
/// The same of row `t`.
const LATER: &[u8; 25] = b"\0\0\0\x0f\0\0\0\x01\0\x01t\x01fq\0\0\0\0\0\0\0\x05\x04v\x01";
/// The first cell, and then the later one.
const BOTH: &[u8; 50] =
    b"\0\0\0\x0f\0\0\0\x01\0\x01r\x01fq\0\0\0\0\0\0\0\x05\x04v\x01\0\0\0\x0f\0\0\0\x01\0\x01t\x01fq\0\0\0\0\0\0\0\x05\x04v\x01";
/// The later cell, and then the first one.
const BACKWARDS: &[u8; 50] =
    b"\0\0\0\x0f\0\0\0\x01\0\x01t\x01fq\0\0\0\0\0\0\0\x05\x04v\x01\0\0\0\x0f\0\0\0\x01\0\x01r\x01fq\0\0\0\0\0\0\0\x05\x04v\x01";
/// The entry of a root for the data block of the first cell, at 0 and with 58 bytes.
const ENTRY: &[u8; 28] = b"\0\0\0\0\0\0\0\0\0\0\0\x3a\x0f\0\x01r\x01fq\0\0\0\0\0\0\0\x05\x04";
/// A file info whose one pair says that cells carry their numbers.
const NUMBERED: &[u8; 32] = b"PBUF\x1b\x0a\x19\x0a\x11KEY_VALUE_VERSION\x12\x04\0\0\0\x01";
/// A file info whose one pair says that the data blocks are encoded.
const ENCODED: &[u8; 34] = b"PBUF\x1d\x0a\x1b\x0a\x13DATA_BLOCK_ENCODING\x12\x04DIFF";

/// What the trailer of the file with the first cell alone tells.
const TOLD: Trailer = Trailer {
    info_at: 152,
    load_at: 58,
    index_bytes: 28,
    total_bytes: 25,
    data_count: 1,
    meta_count: 0,
    entries: 1,
    levels: 1,
    first: 0,
    last: 0,
    compression: 2,
};

/// A block of a file of the tests: its kind and its content.
type Part<'a> = (Magic, &'a [u8]);

/// Adds a block without checksums.
fn add_block(out: &mut Blob, magic: Magic, content: &[u8]) -> Result<(), NoMemory> {
    if content.len() < 4_294_967_263 {
        write_block(out, magic, content, -1)
    } else {
        Ok(())
    }
}

/// A file of these blocks, whose trailer tells this.
fn file(alloc: Global, parts: &[Part<'_>], told: &Trailer) -> Result<Blob, NoMemory> {
    let mut out = Blob::copy_of(alloc, b"")?;
    for (magic, content) in parts {
        add_block(&mut out, *magic, content)?;
    }
    write_trailer(&mut out, told)?;
    Ok(out)
}

/// The blocks of the file with the first cell alone.
const EXAMPLE: [Part<'static>; 4] = [
    (Magic::Data, CELL),
    (Magic::Root, ENTRY),
    (Magic::Root, b""),
    (Magic::Info, NUMBERED),
];

/// What a test compares of the cells of a file: how many there are, and the last one's row, timestamp and number.
type Told = Result<(usize, u8, u64, u64), HFileError>;

/// The first byte of a row, or 0.
fn first_byte(row: &Blob) -> u8 {
    match row.as_slice() {
        [] => 0,
        [first, ..] => *first,
    }
}

/// What the cells of a file tell.
fn told_of(cells: &Items<Cell>) -> (usize, u8, u64, u64) {
    match cells.as_slice() {
        [] => (0, 0, 0, 0),
        [.., last] => (cells.len(), first_byte(&last.row), last.ts, last.seq),
    }
}

/// What the answer for a file tells.
fn answer(alloc: Global, bytes: &[u8]) -> Told {
    match check(alloc, bytes) {
        Ok(cells) => Ok(told_of(&cells)),
        Err(fault) => Err(fault),
    }
}

#[test]
fn reads_the_example(rt: HostRuntime) -> Result<(), Fail> {
    let bytes = file(rt.alloc(), &EXAMPLE, &TOLD)?;
    assert_eq!(rt; bytes.len(), 429);
    assert!(rt; answer(rt.alloc(), bytes.as_slice()) == Ok((1, b'r', 5, 1)));
    let cells = check(rt.alloc(), bytes.as_slice())?;
    for cell in cells.as_slice() {
        assert!(rt; cell.family.as_slice() == b"f".as_slice());
        assert!(rt; cell.qualifier.as_slice() == b"q".as_slice());
        assert!(rt; cell.value.as_slice() == b"v".as_slice());
    }
    Ok(())
}

#[test]
fn reads_no_cells(rt: HostRuntime) -> Result<(), Fail> {
    let parts: [Part<'static>; 3] = [
        (Magic::Root, b""),
        (Magic::Root, b""),
        (Magic::Info, NUMBERED),
    ];
    let told = Trailer {
        info_at: 66,
        load_at: 0,
        data_count: 0,
        entries: 0,
        ..TOLD
    };
    let bytes = file(rt.alloc(), &parts, &told)?;
    assert!(rt; answer(rt.alloc(), bytes.as_slice()) == Ok((0, 0, 0, 0)));
    Ok(())
}

/// The number of bytes that are left of the example's file, and the fault.
const CUTS: [(usize, HFileError); 6] = [
    (428, HFileError::Version(196_608)),
    (427, HFileError::Version(768)),
    (425, HFileError::Version(0)),
    (212, HFileError::Version(0x4f_4e12)),
    (211, HFileError::BadTrailer(211)),
    (0, HFileError::BadTrailer(0)),
];

#[test]
fn refuses_what_is_cut(rt: HostRuntime) -> Result<(), Fail> {
    let mut bytes = file(rt.alloc(), &EXAMPLE, &TOLD)?;
    for (len, fault) in CUTS {
        bytes.truncate(len);
        assert!(rt;
            answer(rt.alloc(), bytes.as_slice()) == Err(fault),
            "at {len}"
        );
    }
    Ok(())
}

#[test]
fn takes_no_prefix(rt: HostRuntime) -> Result<(), Fail> {
    let bytes = file(rt.alloc(), &EXAMPLE, &TOLD)?;
    for len in 0..bytes.len() {
        let found = answer(rt.alloc(), &bytes.as_slice()[..len]);
        assert!(rt;
            found.is_err() && found != Err(HFileError::NoMemory),
            "at {len}"
        );
    }
    Ok(())
}

/// A place of the example's file whose byte is turned, and the answer.
const TURNS: [(usize, Told); 18] = [
    (0, Err(HFileError::Magic(0))),
    (8, Err(HFileError::Size(0))),
    (16, Ok((1, b'r', 5, 1))),
    (24, Err(HFileError::Checksum(255))),
    (28, Ok((1, b'r', 5, 1))),
    (32, Err(HFileError::Size(0))),
    (
        33,
        Err(HFileError::Cell {
            at: 33,
            cause: CellError::Short(4_278_190_079),
        }),
    ),
    (
        41,
        Err(HFileError::Cell {
            at: 33,
            cause: CellError::RowLength,
        }),
    ),
    (43, Ok((1, 0x8d, 5, 1))),
    (54, Err(HFileError::BadIndex(58))),
    (
        55,
        Err(HFileError::Cell {
            at: 33,
            cause: CellError::Kind(251),
        }),
    ),
    (
        57,
        Err(HFileError::Cell {
            at: 33,
            cause: CellError::Sequence,
        }),
    ),
    (58, Err(HFileError::Magic(58))),
    (91, Err(HFileError::BadIndex(58))),
    (103, Err(HFileError::BadIndex(58))),
    (119, Err(HFileError::Magic(119))),
    (185, Err(HFileError::BadInfo(152))),
    (217, Err(HFileError::BadTrailer(217))),
];

/// The bytes with the one at a place turned.
fn turned(alloc: Global, bytes: &[u8], place: usize) -> Result<Blob, NoMemory> {
    let mut bytes = Blob::copy_of(alloc, bytes)?.into_vec();
    if place < bytes.len() {
        bytes[place] ^= 255;
    }
    Ok(Blob::from_vec(bytes))
}

#[test]
fn reads_turned_bytes(rt: HostRuntime) -> Result<(), Fail> {
    let bytes = file(rt.alloc(), &EXAMPLE, &TOLD)?;
    for (place, expected) in TURNS {
        let bytes = turned(rt.alloc(), bytes.as_slice(), place)?;
        assert!(rt;
            answer(rt.alloc(), bytes.as_slice()) == expected,
            "at {place}"
        );
    }
    Ok(())
}

#[test]
fn answers_each_turned_byte(rt: HostRuntime) -> Result<(), Fail> {
    let bytes = file(rt.alloc(), &EXAMPLE, &TOLD)?;
    for place in 0..bytes.len() {
        let bytes = turned(rt.alloc(), bytes.as_slice(), place)?;
        match answer(rt.alloc(), bytes.as_slice()) {
            Ok((count, _, _, _)) => assert!(rt; count == 1, "at {place}"),
            Err(fault) => assert!(rt; fault != HFileError::NoMemory, "at {place}"),
        }
    }
    Ok(())
}

/// What the trailer of the example's file tells, with another number in one of its fields.
fn told_with(field: u32, number: u64) -> Trailer {
    match field {
        1 => Trailer {
            info_at: number,
            ..TOLD
        },
        2 => Trailer {
            load_at: number,
            ..TOLD
        },
        5 => Trailer {
            data_count: number,
            ..TOLD
        },
        7 => Trailer {
            entries: number,
            ..TOLD
        },
        8 => Trailer {
            levels: number,
            ..TOLD
        },
        _ => Trailer {
            compression: 1,
            ..TOLD
        },
    }
}

/// A field of the trailer, the number that it has in place of the right one, and the fault.
const TRAILERS: [(u32, u64, HFileError); 13] = [
    (
        7,
        2,
        HFileError::Count {
            written: 2,
            found: 1,
        },
    ),
    (
        7,
        u64::MAX,
        HFileError::Count {
            written: u64::MAX,
            found: 1,
        },
    ),
    (8, 0, HFileError::BadIndex(58)),
    (8, 2, HFileError::BadIndex(58)),
    (8, u64::MAX, HFileError::BadIndex(58)),
    (5, 0, HFileError::BadIndex(58)),
    (5, 2, HFileError::BadIndex(58)),
    (5, 1 << 32, HFileError::BadIndex(58)),
    (2, 57, HFileError::Magic(57)),
    (2, u64::MAX, HFileError::Magic(u64::MAX)),
    (1, 151, HFileError::BadInfo(151)),
    (1, u64::MAX, HFileError::BadInfo(u64::MAX)),
    (12, 1, HFileError::Compressed(1)),
];

#[test]
fn refuses_trailers(rt: HostRuntime) -> Result<(), Fail> {
    for (field, number, fault) in TRAILERS {
        let bytes = file(rt.alloc(), &EXAMPLE, &told_with(field, number))?;
        assert!(rt;
            answer(rt.alloc(), bytes.as_slice()) == Err(fault),
            "{fault}"
        );
    }
    Ok(())
}

/// A leaf with the entry of the first cell's data block.
const LEAF: &[u8; 39] =
    b"\0\0\0\x01\0\0\0\0\0\0\0\x1b\0\0\0\0\0\0\0\0\0\0\0\x3a\0\x01r\x01fq\0\0\0\0\0\0\0\x05\x04";
/// A node with an entry for a node at 58 with 72 bytes.
const NAMES_58: &[u8; 39] =
    b"\0\0\0\x01\0\0\0\0\0\0\0\x1b\0\0\0\0\0\0\0\x3a\0\0\0\x48\0\x01r\x01fq\0\0\0\0\0\0\0\x05\x04";
/// The entry of a root for the node at 58 with 72 bytes.
const TO_58: &[u8; 28] = b"\0\0\0\0\0\0\0\x3a\0\0\0\x48\x0f\0\x01r\x01fq\0\0\0\0\0\0\0\x05\x04";
/// The same twice.
const TWICE: &[u8; 56] =
    b"\0\0\0\0\0\0\0\x3a\0\0\0\x48\x0f\0\x01r\x01fq\0\0\0\0\0\0\0\x05\x04\0\0\0\0\0\0\0\x3a\0\0\0\x48\x0f\0\x01r\x01fq\0\0\0\0\0\0\0\x05\x04";
/// The entry of a root for the node at 130 with 72 bytes.
const TO_130: &[u8; 28] = b"\0\0\0\0\0\0\0\x82\0\0\0\x48\x0f\0\x01r\x01fq\0\0\0\0\0\0\0\x05\x04";
/// The first entry of a root, whose key is that of row `s`.
const ABOVE: &[u8; 28] = b"\0\0\0\0\0\0\0\0\0\0\0\x3a\x0f\0\x01s\x01fq\0\0\0\0\0\0\0\x05\x04";
/// The entries of a root for the data blocks of the first cell and of the later one, whose key is shortened to row `s`.
const SHORTENED: &[u8; 54] =
    b"\0\0\0\0\0\0\0\0\0\0\0\x3a\x0f\0\x01r\x01fq\0\0\0\0\0\0\0\x05\x04\0\0\0\0\0\0\0\x3a\0\0\0\x3a\x0d\0\x01s\0\x7f\xff\xff\xff\xff\xff\xff\xff\xff";
/// The same with the second key shortened to row `q`, below the first cell.
const BELOW: &[u8; 54] =
    b"\0\0\0\0\0\0\0\0\0\0\0\x3a\x0f\0\x01r\x01fq\0\0\0\0\0\0\0\x05\x04\0\0\0\0\0\0\0\x3a\0\0\0\x3a\x0d\0\x01q\0\x7f\xff\xff\xff\xff\xff\xff\xff\xff";
/// The first entry of a root, and a middle key.
const WITH_MIDDLE: &[u8; 44] =
    b"\0\0\0\0\0\0\0\x3a\0\0\0\x48\x0f\0\x01r\x01fq\0\0\0\0\0\0\0\x05\x04\0\0\0\0\0\0\0\x3a\0\0\0\x48\0\0\0\0";

/// The blocks before the root, the root, the file info; how many entries the root has, how many cells and levels there
/// are; and the answer.
type Case = (
    &'static [Part<'static>],
    &'static [u8],
    (u64, u64, u64),
    Told,
);

/// A file of the blocks of a case, each part where the trailer tells.
fn case_file(
    alloc: Global,
    front: &[Part<'_>],
    root: &[u8],
    counts: (u64, u64, u64),
    info: &[u8],
) -> Result<Blob, NoMemory> {
    let mut out = Blob::copy_of(alloc, b"")?;
    for (magic, content) in front {
        add_block(&mut out, *magic, content)?;
    }
    let load_at = out.len() as u64;
    add_block(&mut out, Magic::Root, root)?;
    add_block(&mut out, Magic::Root, b"")?;
    let info_at = out.len() as u64;
    add_block(&mut out, Magic::Info, info)?;
    let (data_count, entries, levels) = counts;
    let told = Trailer {
        info_at,
        load_at,
        data_count,
        entries,
        levels,
        ..TOLD
    };
    write_trailer(&mut out, &told)?;
    Ok(out)
}

const ONE: Part<'static> = (Magic::Data, CELL);

const TWO: Part<'static> = (Magic::Data, LATER);

const LISTS: Part<'static> = (Magic::Leaf, LEAF);

/// Files and their answers.
const CASES: [Case; 21] = [
    (&[ONE, LISTS], TO_58, (1, 1, 2), Ok((1, b'r', 5, 1))),
    (&[ONE, LISTS], WITH_MIDDLE, (1, 1, 2), Ok((1, b'r', 5, 1))),
    (
        &[ONE, LISTS, (Magic::Intermediate, NAMES_58)],
        TO_130,
        (1, 1, 3),
        Ok((1, b'r', 5, 1)),
    ),
    (&[ONE, LISTS], ENTRY, (1, 1, 1), Ok((1, b'r', 5, 1))),
    (
        &[(Magic::Data, BOTH)],
        b"\0\0\0\0\0\0\0\0\0\0\0\x53\x0f\0\x01r\x01fq\0\0\0\0\0\0\0\x05\x04",
        (1, 2, 1),
        Ok((2, b't', 5, 1)),
    ),
    (&[ONE, TWO], SHORTENED, (2, 2, 1), Ok((2, b't', 5, 1))),
    (
        &[ONE, TWO],
        BELOW,
        (2, 2, 1),
        Err(HFileError::BadIndex(116)),
    ),
    (
        &[ONE, TWO],
        ENTRY,
        (1, 2, 1),
        Err(HFileError::BadIndex(116)),
    ),
    (&[ONE], ABOVE, (1, 1, 1), Err(HFileError::BadIndex(58))),
    (
        &[ONE, LISTS],
        WITH_MIDDLE,
        (1, 1, 1),
        Err(HFileError::BadIndex(130)),
    ),
    (
        &[ONE, LISTS],
        TO_58,
        (1, 1, 1),
        Err(HFileError::BadIndex(130)),
    ),
    (
        &[ONE, LISTS],
        TO_58,
        (1, 1, 3),
        Err(HFileError::BadIndex(130)),
    ),
    (
        &[ONE, LISTS],
        TWICE,
        (2, 1, 2),
        Err(HFileError::BadIndex(130)),
    ),
    (
        &[ONE, (Magic::Intermediate, NAMES_58)],
        TO_58,
        (1, 1, 3),
        Err(HFileError::BadIndex(58)),
    ),
    (
        &[ONE, (Magic::Intermediate, NAMES_58)],
        TO_58,
        (1, 1, u64::MAX),
        Err(HFileError::BadIndex(58)),
    ),
    (
        &[ONE, (Magic::Leaf, NAMES_58)],
        TO_58,
        (1, 1, 2),
        Err(HFileError::BadIndex(58)),
    ),
    (
        &[ONE, ONE],
        SHORTENED,
        (2, 2, 1),
        Err(HFileError::Order(91)),
    ),
    (
        &[(Magic::Data, BACKWARDS)],
        ENTRY,
        (1, 2, 1),
        Err(HFileError::Order(58)),
    ),
    (
        &[(Magic::Data, b"")],
        ENTRY,
        (1, 0, 1),
        Err(HFileError::Cell {
            at: 33,
            cause: CellError::Short(8),
        }),
    ),
    (
        &[ONE, (Magic::Root, b"")],
        ENTRY,
        (1, 1, 1),
        Err(HFileError::Magic(58)),
    ),
    (
        &[ONE, (Magic::BloomPart, b"bloom"), (Magic::Meta, b"")],
        ENTRY,
        (1, 1, 1),
        Ok((1, b'r', 5, 1)),
    ),
];

#[test]
fn reads_cases(rt: HostRuntime) -> Result<(), Fail> {
    for (i, (front, root, counts, expected)) in CASES.iter().enumerate() {
        let bytes = case_file(rt.alloc(), front, root, *counts, NUMBERED)?;
        assert!(rt;
            answer(rt.alloc(), bytes.as_slice()) == *expected,
            "case {i}"
        );
    }
    Ok(())
}

#[test]
fn refuses_encoded_blocks(rt: HostRuntime) -> Result<(), Fail> {
    let bytes = case_file(rt.alloc(), &[ONE], ENTRY, (1, 1, 1), ENCODED)?;
    assert!(rt; answer(rt.alloc(), bytes.as_slice()) == Err(HFileError::Encoded));
    Ok(())
}

/// A leaf with the entry of the first cell's data block, which has checksums and so 62 bytes.
const FIRST_LEAF: &[u8; 39] =
    b"\0\0\0\x01\0\0\0\0\0\0\0\x1b\0\0\0\0\0\0\0\0\0\0\0\x3e\0\x01r\x01fq\0\0\0\0\0\0\0\x05\x04";
/// A leaf with the entry of the later cell's data block, whose key is shortened to the row `s`.
const SECOND_LEAF: &[u8; 37] =
    b"\0\0\0\x01\0\0\0\0\0\0\0\x19\0\0\0\0\0\0\0\x3e\0\0\0\x3e\0\x01s\0\x7f\xff\xff\xff\xff\xff\xff\xff\xff";
/// A root with the entries of these leaves, at 165 with 76 bytes and at 241 with 74, and a middle key.
const TWO_LEVELS: &[u8; 70] =
    b"\0\0\0\0\0\0\0\xa5\0\0\0\x4c\x0f\0\x01r\x01fq\0\0\0\0\0\0\0\x05\x04\0\0\0\0\0\0\0\xf1\0\0\0\x4a\x0d\0\x01s\0\x7f\xff\xff\xff\xff\xff\xff\xff\xff\0\0\0\0\0\0\0\xa5\0\0\0\x4c\0\0\0\0";
/// A file info with a further pair.
const TWO_PAIRS: &[u8; 52] =
    b"PBUF\x2f\x0a\x19\x0a\x11KEY_VALUE_VERSION\x12\x04\0\0\0\x01\x0a\x12\x0a\x0dhfile.LASTKEY\x12\x01x";

/// Blocks as HBase's own writers put them, each with CRC32C checksums.
const SUMMED: [Part<'static>; 9] = [
    (Magic::Data, CELL),
    (Magic::Data, LATER),
    (Magic::BloomPart, b"bits"),
    (Magic::Leaf, FIRST_LEAF),
    (Magic::Leaf, SECOND_LEAF),
    (Magic::Root, TWO_LEVELS),
    (Magic::Root, b""),
    (Magic::Info, TWO_PAIRS),
    (Magic::BloomMeta, b"b"),
];

/// Adds a block with the four bytes of a CRC32C checksum.
fn add_summed(out: &mut Blob, magic: Magic, content: &[u8]) -> Result<(), NoMemory> {
    let len = content.len().min(1000) as u32;
    out.add(&magic.bytes())?;
    put_u32(out, len + 4)?;
    put_u32(out, len)?;
    put_u64(out, u64::MAX)?;
    out.add(&[2])?;
    put_u32(out, 16_384)?;
    put_u32(out, len + 33)?;
    out.add(content)?;
    out.add(b"sums")
}

#[test]
fn reads_checksums(rt: HostRuntime) -> Result<(), Fail> {
    let mut out = Blob::copy_of(rt.alloc(), b"")?;
    for (magic, content) in SUMMED {
        add_summed(&mut out, magic, content)?;
    }
    let told = Trailer {
        info_at: 459,
        load_at: 315,
        data_count: 2,
        entries: 2,
        levels: 2,
        ..TOLD
    };
    write_trailer(&mut out, &told)?;
    assert!(rt; answer(rt.alloc(), out.as_slice()) == Ok((2, b't', 5, 1)));
    Ok(())
}
