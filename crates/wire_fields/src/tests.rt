use super::*;
use hb_wire::{Blob, WireError};
use std::test::Fail;

/// Numbers and their bytes, as protobuf writes them.
const NUMBERS: [(u64, &[u8]); 7] = [
    (0, &[0]),
    (1, &[1]),
    (127, &[0x7f]),
    (128, &[0x80, 0x01]),
    (300, &[0xac, 0x02]),
    (16384, &[0x80, 0x80, 0x01]),
    (
        u64::MAX,
        &[0xff, 0xff, 0xff, 0xff, 0xff, 0xff, 0xff, 0xff, 0xff, 0x01],
    ),
];

#[test]
fn numbers_both_ways(rt: HostRuntime) -> Result<(), Fail> {
    for (value, bytes) in NUMBERS {
        let mut out = Blob::copy_of(rt.alloc(), b"x")?;
        put_varint(&mut out, value)?;
        assert_eq!(rt; &out.as_slice()[1..], bytes);
        assert_eq!(rt; get_varint(out.as_slice(), 1), Ok((value, bytes.len())));
    }
    Ok(())
}

/// Bytes that begin with no number: cut off, spelled too long, or beyond 64 bits; and both.
const FAULTS: [(&[u8], WireError); 8] = [
    (&[], WireError::Short(1)),
    (&[0x80], WireError::Short(1)),
    (&[0xff; 9], WireError::Short(1)),
    (&[0x80, 0x00], WireError::Overlong),
    (&[0x80, 0x80, 0x00, 0x80], WireError::Overlong),
    (&[0x80, 0x80], WireError::Short(1)),
    (&[0xff; 10], WireError::Overlong),
    (
        &[0xff, 0xff, 0xff, 0xff, 0xff, 0xff, 0xff, 0xff, 0xff, 0x02],
        WireError::Overlong,
    ),
];

#[test]
fn refuses_numbers(rt: HostRuntime) -> Result<(), Fail> {
    for (bytes, fault) in FAULTS {
        assert_eq!(rt; get_varint(bytes, 0), Err(fault));
    }
    Ok(())
}

/// Fields behind one byte, and what they are: the examples of protobuf's description, and each kind.
const FIELDS: [(&[u8], u32, FieldValue); 5] = [
    (&[9, 0x08, 0x96, 0x01], 1, FieldValue::Varint(150)),
    (
        &[9, 0x12, 0x03, b'a', b'b', b'c'],
        2,
        FieldValue::Bytes { from: 3, len: 3 },
    ),
    (
        &[9, 0x19, 1, 0, 0, 0, 0, 0, 0, 0x80],
        3,
        FieldValue::Fixed64(0x8000_0000_0000_0001),
    ),
    (&[9, 0x25, 2, 1, 0, 0], 4, FieldValue::Fixed32(0x102)),
    (
        &[9, 0xfa, 0xff, 0xff, 0xff, 0x0f, 0],
        0x1fff_ffff,
        FieldValue::Bytes { from: 7, len: 0 },
    ),
];

#[test]
fn reads_fields(rt: HostRuntime) -> Result<(), Fail> {
    for (bytes, number, value) in FIELDS {
        let field = Field { number, value };
        assert!(rt; !bytes.is_empty());
        assert_eq!(rt; get_field(bytes, 1), Ok((field, bytes.len() - 1)));
    }
    Ok(())
}

/// Bytes that begin with no field. The fault that stands first is told.
const BAD_FIELDS: [(&[u8], WireError); 9] = [
    (&[], WireError::Short(1)),
    (&[0x08], WireError::Short(1)),
    (&[0x12, 0x03, b'a'], WireError::Short(2)),
    (&[0x19, 1], WireError::Short(7)),
    (&[0x1d, 1], WireError::Short(3)),
    (&[0x0b], WireError::BadWire(11)),
    (&[0x00, 0x80], WireError::BadWire(0)),
    (&[0x80, 0x80, 0x80, 0x80, 0x10], WireError::Overlong),
    (&[0x08, 0x80, 0x00], WireError::Overlong),
];

#[test]
fn refuses_fields(rt: HostRuntime) -> Result<(), Fail> {
    for (bytes, fault) in BAD_FIELDS {
        assert_eq!(rt; get_field(bytes, 0), Err(fault));
    }
    Ok(())
}

#[test]
fn writes_fields(rt: HostRuntime) -> Result<(), Fail> {
    let mut out = Blob::copy_of(rt.alloc(), b"")?;
    put_varint_field(&mut out, 1, 150)?;
    put_bytes_field(&mut out, 2, b"abc")?;
    assert_eq!(rt;
        out.as_slice(),
        [0x08, 0x96, 0x01, 0x12, 0x03, b'a', b'b', b'c'].as_slice()
    );
    put_bytes_field(&mut out, 0x1fff_ffff, &[7; 300])?;
    assert_eq!(rt; out.len(), 8 + 5 + 2 + 300);
    Ok(())
}

/// A message with a field twice, an unknown one, and each kind; cut at 14 it ends in the middle of its last field.
const MESSAGE: [u8; 17] = [
    0x08, 1, 0x12, 1, b'a', 0x08, 0x96, 0x01, 0x1d, 1, 0, 0, 0, 0x12, 2, b'b', b'c',
];

#[test]
fn splits_messages(rt: HostRuntime) -> Result<(), Fail> {
    for (len, count, end, last) in [
        (17, 5, 17, Some(FieldValue::Bytes { from: 15, len: 2 })),
        (14, 4, 13, Some(FieldValue::Bytes { from: 4, len: 1 })),
        (3, 1, 2, None),
        (0, 0, 0, None),
    ] {
        assert!(rt; len <= 17);
        let found = split_fields(rt.alloc(), &MESSAGE[..len])?;
        assert_eq!(rt; found.fields.len(), count);
        assert_eq!(rt; found.end, end);
        assert_eq!(rt; last_value(found.fields.as_slice(), 2), last);
    }
    let found = split_fields(rt.alloc(), &MESSAGE)?;
    assert_eq!(rt;
        last_value(found.fields.as_slice(), 1),
        Some(FieldValue::Varint(150))
    );
    assert_eq!(rt;
        found.fields.get(2).map(|field| (field.at, field.number)),
        Some((5, 1))
    );
    assert_eq!(rt; last_value(found.fields.as_slice(), 7), None);
    Ok(())
}

#[test]
fn finds_last_numbers(rt: HostRuntime) -> Result<(), Fail> {
    for (len, number, answer) in [
        (17, 1, Ok(Some(150))),
        (5, 1, Ok(Some(1))),
        (17, 2, Ok(None)),
        (17, 9, Ok(None)),
        (14, 1, Err(13)),
        (0, 1, Ok(None)),
    ] {
        assert!(rt; len <= 17);
        assert_eq!(rt; last_number(&MESSAGE[..len], number), answer);
    }
    Ok(())
}
