use super::*;
use hb_wire::{Blob, Items, NoMemory};
use std::alloc::{AllocError, Global};
use std::test::Fail;
use wire_fields::{put_bytes_field, put_varint, put_varint_field};

/// What a trailer of the test tells: its fields by number, the last of one counts.
const FIELDS: [(u32, u64); 12] = [
    (1, 152),
    (2, 58),
    (3, 61),
    (4, 25),
    (5, 9),
    (5, 1),
    (7, 1),
    (8, 1),
    (9, 0),
    (10, 7),
    (12, 2),
    (100, 5),
];

/// Adds a field with a number that a field can have.
fn add_field(out: &mut Blob, number: u32, value: u64) -> Result<(), NoMemory> {
    if 1 <= number && number < 0x2000_0000 {
        put_varint_field(out, number, value)
    } else {
        Ok(())
    }
}

/// The bytes of a trailer behind some others, with a field more, or without one.
fn trailer(alloc: Global, more: (u32, u64), less: u32) -> Result<Blob, NoMemory> {
    let mut message = Blob::copy_of(alloc, b"")?;
    for (number, value) in FIELDS {
        if number != less {
            add_field(&mut message, number, value)?;
        }
    }
    put_bytes_field(
        &mut message,
        11,
        b"org.apache.hadoop.hbase.CellComparatorImpl",
    )?;
    add_field(&mut message, more.0, more.1)?;
    let mut out = Blob::copy_of(alloc, b"some blocksTRABLK\"$")?;
    put_varint(&mut out, message.len() as u64)?;
    out.add(message.as_slice())?;
    out.add(&[0; 200])?;
    out.truncate(219);
    out.add(&[3, 0, 0, 2])?;
    Ok(out)
}

#[test]
fn reads_trailers(rt: HostRuntime) -> Result<(), Fail> {
    let bytes = trailer(rt.alloc(), (13, 0), 0)?;
    let told = Trailer {
        info_at: 152,
        load_at: 58,
        index_bytes: 61,
        total_bytes: 25,
        data_count: 1,
        meta_count: 0,
        entries: 1,
        levels: 1,
        first: 0,
        last: 7,
        compression: 2,
    };
    assert_eq!(rt; read_trailer(bytes.as_slice()), Ok(told));
    let mut out = Blob::copy_of(rt.alloc(), b"x")?;
    write_trailer(&mut out, &told)?;
    assert_eq!(rt; out.len(), 213);
    assert_eq!(rt; read_trailer(out.as_slice()), Ok(told));
    assert_eq!(rt; &out.as_slice()[209..], [3, 0, 0, 2].as_slice());
    let greatest = Trailer {
        info_at: u64::MAX,
        load_at: u64::MAX,
        entries: u64::MAX,
        ..told
    };
    let mut out = Blob::copy_of(rt.alloc(), b"")?;
    write_trailer(&mut out, &greatest)?;
    assert_eq!(rt; read_trailer(out.as_slice()), Ok(greatest));
    let bytes = trailer(rt.alloc(), (6, u64::MAX), 12)?;
    let meta_count = u64::MAX;
    assert_eq!(rt;
        read_trailer(bytes.as_slice()),
        Ok(Trailer { meta_count, ..told })
    );
    Ok(())
}

/// A field more, one less, and the fault.
const FAULTS: [(u32, u64, u32, MetaError); 9] = [
    (12, 1, 0, MetaError::Compressed(1)),
    (12, u32::MAX as u64, 0, MetaError::Compressed(u32::MAX)),
    (12, 1 << 32, 0, MetaError::BadTrailer(11)),
    (12, 1, 8, MetaError::BadTrailer(11)),
    (13, 0, 1, MetaError::BadTrailer(11)),
    (13, 0, 2, MetaError::BadTrailer(11)),
    (13, 0, 5, MetaError::BadTrailer(11)),
    (13, 0, 7, MetaError::BadTrailer(11)),
    (13, 0, 8, MetaError::BadTrailer(11)),
];

#[test]
fn refuses_fields(rt: HostRuntime) -> Result<(), Fail> {
    for (number, value, less, fault) in FAULTS {
        let bytes = trailer(rt.alloc(), (number, value), less)?;
        assert_eq!(rt; read_trailer(bytes.as_slice()), Err(fault));
    }
    Ok(())
}

/// A place of the file of 223 bytes, the byte that is put there, and the fault.
const BYTES: [(usize, u8, MetaError); 8] = [
    (222, 3, MetaError::Version(3)),
    (220, 3, MetaError::Version(196_610)),
    (219, 1, MetaError::BadTrailer(11)),
    (219, 4, MetaError::BadTrailer(11)),
    (11, b't', MetaError::BadTrailer(11)),
    (218, 1, MetaError::BadTrailer(11)),
    (19, 255, MetaError::BadTrailer(11)),
    (20, 0x0b, MetaError::BadTrailer(11)),
];

#[test]
fn refuses_bytes(rt: HostRuntime) -> Result<(), Fail> {
    for (place, byte, fault) in BYTES {
        let mut bytes = trailer(rt.alloc(), (13, 0), 0)?.into_vec();
        assert!(rt; place < bytes.len());
        bytes[place] = byte;
        assert_eq!(rt; read_trailer(bytes.as_slice()), Err(fault));
    }
    let mut bytes = trailer(rt.alloc(), (13, 0), 0)?;
    assert_eq!(rt; bytes.len(), 223);
    for (len, fault) in [
        (222, MetaError::Version(196_608)),
        (211, MetaError::BadTrailer(211)),
        (0, MetaError::BadTrailer(0)),
    ] {
        bytes.truncate(len);
        assert_eq!(rt; read_trailer(bytes.as_slice()), Err(fault));
    }
    Ok(())
}

/// The faults and how they are printed.
const PRINTED: [(MetaError, &str); 6] = [
    (
        MetaError::BadTrailer(5),
        "the trailer at 5 is not in its form",
    ),
    (MetaError::Version(3), "version 3 is not read"),
    (
        MetaError::Compressed(1),
        "the blocks are compressed by method 1",
    ),
    (MetaError::BadInfo(7), "the file info at 7 is wrong"),
    (MetaError::Encoded, "the data blocks are encoded"),
    (MetaError::NoMemory, "no memory was left"),
];

#[test]
fn prints_faults(rt: HostRuntime) -> Result<(), Fail> {
    for (fault, text) in PRINTED {
        let printed = format!(in rt.alloc(); "{fault}")?;
        assert_eq!(rt; printed.as_str(), text);
    }
    Ok(())
}

/// The message of a pair of a key and a value.
fn pair(alloc: Global, key: &[u8], value: &[u8]) -> Result<Blob, NoMemory> {
    let mut message = Blob::copy_of(alloc, b"")?;
    put_bytes_field(&mut message, 1, key)?;
    put_bytes_field(&mut message, 2, value)?;
    Ok(message)
}

/// The content of a file info with these pairs, and a field that is passed over.
fn info(alloc: Global, pairs: &[(&[u8], &[u8])]) -> Result<Blob, NoMemory> {
    let mut message = Blob::copy_of(alloc, b"")?;
    for (key, value) in pairs {
        put_bytes_field(&mut message, 1, pair(alloc, key, value)?.as_slice())?;
        put_varint_field(&mut message, 7, 300)?;
    }
    let mut content = Blob::copy_of(alloc, b"PBUF")?;
    put_varint(&mut content, message.len() as u64)?;
    content.add(message.as_slice())?;
    Ok(content)
}

/// What a test compares of a file info: how many pairs it has, and whether its cells are numbered.
type InfoTold = Result<(usize, bool), MetaError>;

/// What a content tells, or the fault.
fn told_by(alloc: Global, content: &[u8]) -> InfoTold {
    match read_info(alloc, content) {
        Ok(info) => Ok((info.pairs.len(), info.with_numbers())),
        Err(fault) => Err(fault),
    }
}

/// What a file info with these pairs tells.
fn told_of(alloc: Global, pairs: &[(&[u8], &[u8])]) -> InfoTold {
    match info(alloc, pairs) {
        Ok(content) => told_by(alloc, content.as_slice()),
        Err(_full) => Err(MetaError::NoMemory),
    }
}

const VERSION_ONE: (&[u8], &[u8]) = (b"KEY_VALUE_VERSION", b"\0\0\0\x01");

const VERSION_TWO: (&[u8], &[u8]) = (b"KEY_VALUE_VERSION", b"\0\0\0\x02");

const PLAIN: (&[u8], &[u8]) = (b"DATA_BLOCK_ENCODING", b"NONE");

const ENCODED: (&[u8], &[u8]) = (b"DATA_BLOCK_ENCODING", b"PREFIX");

#[test]
fn reads_infos(rt: HostRuntime) {
    assert!(rt; told_of(rt.alloc(), &[]) == Ok((0, false)));
    assert!(rt; told_of(rt.alloc(), &[VERSION_ONE, PLAIN]) == Ok((2, true)));
    assert!(rt; told_of(rt.alloc(), &[VERSION_ONE, VERSION_TWO]) == Ok((2, false)));
    assert!(rt; told_of(rt.alloc(), &[VERSION_ONE, ENCODED]) == Err(MetaError::Encoded));
}

/// A file info with one pair, of the key `k` and the value `v`.
const ONE_PAIR: &[u8; 13] = b"PBUF\x08\x0a\x06\x0a\x01k\x12\x01v";

/// Contents that are no file info: a byte too many, a pair without a value, a pair that is no message, another front.
const NO_INFOS: [&[u8]; 4] = [
    b"PBUF\0\0",
    b"PBUF\x05\x0a\x03\x0a\x01k",
    b"PBUF\x03\x0a\x01\x0a",
    b"pbuf\0",
];

#[test]
fn refuses_infos(rt: HostRuntime) {
    assert!(rt; told_by(rt.alloc(), ONE_PAIR) == Ok((1, false)));
    for len in 0..ONE_PAIR.len() {
        assert!(rt; told_by(rt.alloc(), &ONE_PAIR[..len]) == Err(MetaError::BadInfo(0)));
    }
    for content in NO_INFOS {
        assert!(rt; told_by(rt.alloc(), content) == Err(MetaError::BadInfo(0)));
    }
}

/// The contents that are written for some pairs: by hand, no pair, one, and two whose order is kept.
const WRITTEN_INFOS: [(&[(&[u8], &[u8])], &[u8]); 3] = [
    (&[], b"PBUF\0"),
    (&[(b"k", b"v")], ONE_PAIR),
    (
        &[(b"k", b""), (b"", b"v")],
        b"PBUF\x0e\x0a\x05\x0a\x01k\x12\0\x0a\x05\x0a\0\x12\x01v",
    ),
];

/// The content that is written for some pairs.
fn written(alloc: Global, pairs: &[(&[u8], &[u8])]) -> Result<Blob, NoMemory> {
    let mut kept = Vec::with_capacity(alloc, pairs.len())?;
    for (key, value) in pairs {
        let pair = (Blob::copy_of(alloc, key)?, Blob::copy_of(alloc, value)?);
        kept.push(pair).map_err(|_pair| AllocError)?;
    }
    let mut out = Blob::copy_of(alloc, b"")?;
    write_info(
        &mut out,
        &Info {
            pairs: Items::from_vec(kept),
        },
    )?;
    Ok(out)
}

#[test]
fn writes_infos(rt: HostRuntime) -> Result<(), Fail> {
    for (pairs, content) in WRITTEN_INFOS {
        let out = written(rt.alloc(), pairs)?;
        assert_eq!(rt; out.as_slice(), content);
    }
    // A value of 200 bytes, whose lengths take two bytes each.
    let out = written(rt.alloc(), &[(b"k", &[7; 200])])?;
    assert!(rt; out.len() == 4 + 2 + 3 + 3 + 3 + 200);
    assert!(rt; told_by(rt.alloc(), out.as_slice()) == Ok((1, false)));
    Ok(())
}
