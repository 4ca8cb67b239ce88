use super::*;
use std::cmp::Ordering;
use std::test::Fail;

/// Bytes to add, from none to many.
const PIECES: [&[u8]; 4] = [b"", b"a", b"bc", &[7; 5000]];

#[test]
fn keeps_bytes(rt: HostRuntime) -> Result<(), Fail> {
    for piece in PIECES {
        let mut blob = Blob::copy_of(rt.alloc(), b"ab")?;
        blob.reserve(piece.len())?;
        blob.add(piece)?;
        assert_eq!(rt; blob.len(), 2 + piece.len());
        let copy = Blob::copy_of(rt.alloc(), piece)?.copy()?;
        assert_eq!(rt; copy.as_slice(), piece);
        assert_eq!(rt; copy.is_empty(), piece.is_empty());
        assert_eq!(rt; &blob.as_slice()[2..], piece);
        blob.truncate(1);
        assert_eq!(rt; Blob::from_vec(blob.into_vec()).as_slice(), b"a".as_slice());
    }
    Ok(())
}

#[test]
fn adds_fixed_numbers(rt: HostRuntime) -> Result<(), Fail> {
    let mut out = Blob::copy_of(rt.alloc(), b"")?;
    put_u16(&mut out, 0x0102)?;
    put_u32(&mut out, 3)?;
    put_u64(&mut out, 4)?;
    put_u16(&mut out, u16::MAX)?;
    put_u32(&mut out, u32::MAX)?;
    assert_eq!(rt;
        out.as_slice(),
        [
            1, 2, 0, 0, 0, 3, 0, 0, 0, 0, 0, 0, 0, 4, 255, 255, 255, 255, 255, 255
        ]
        .as_slice()
    );
    Ok(())
}

#[test]
fn keeps_values(rt: HostRuntime) -> Result<(), Fail> {
    let alloc = rt.alloc();
    let mut items = Items::new(alloc);
    assert!(rt; items.is_empty());
    for number in 1u64..600 {
        assert!(rt; items.push((Some(number), number < 3, 7u8, -1i64)).is_ok());
    }
    let copy = items.copy()?;
    assert_eq!(rt; copy.len(), 599);
    assert_eq!(rt; copy.get(2), Some(&(Some(3), false, 7, -1)));
    assert_eq!(rt; copy.get(599), None);
    assert!(rt; copy == items);
    let values = items.into_vec();
    assert_eq!(rt; Items::from_vec(values).len(), 599);
    Ok(())
}

#[test]
fn copies_numbers(rt: HostRuntime) -> Result<(), Fail> {
    let numbers = (u8::MAX, u16::MAX, u32::MAX, u64::MAX);
    assert_eq!(rt; numbers.copy()?, numbers);
    let numbers = (i8::MIN, i16::MIN, i32::MIN, i64::MIN);
    assert_eq!(rt; numbers.copy()?, numbers);
    let numbers = (u128::MAX, i128::MIN, isize::MIN);
    assert_eq!(rt; numbers.copy()?, numbers);
    assert_eq!(rt; (usize::MAX, true).copy()?, (usize::MAX, true));
    assert_eq!(rt; None::<u8>.copy()?, None);
    Ok(())
}

/// Lists, and how the first stands to the second.
const LISTS: [(&[u8], &[u8], Ordering); 5] = [
    (&[], &[], Ordering::Equal),
    (&[], &[0], Ordering::Less),
    (&[2], &[1, 9], Ordering::Greater),
    (&[1, 2], &[1, 2, 0], Ordering::Less),
    (&[1, 2, 3], &[1, 2, 3], Ordering::Equal),
];

#[test]
fn compares(rt: HostRuntime) -> Result<(), Fail> {
    for (a, b, order) in LISTS {
        let first = Items::from_vec(a.to_vec(rt.alloc())?);
        let second = Items::from_vec(b.to_vec(rt.alloc())?);
        assert_eq!(rt; first.cmp(&second), order);
        assert_eq!(rt; first.partial_cmp(&second), Some(order));
        assert_eq!(rt; first == second, order == Ordering::Equal);
        let first = Blob::copy_of(rt.alloc(), a)?;
        let second = Blob::copy_of(rt.alloc(), b)?;
        assert_eq!(rt; first.cmp(&second), order);
        assert_eq!(rt; first.partial_cmp(&second), Some(order));
        assert_eq!(rt; first == second, order == Ordering::Equal);
    }
    Ok(())
}

/// Numbers and their bytes, as Hadoop's `WritableUtils` writes them.
const NUMBERS: [(i64, &[u8]); 9] = [
    (0, &[0]),
    (127, &[0x7f]),
    (128, &[0x8f, 0x80]),
    (256, &[0x8e, 0x01, 0x00]),
    (-1, &[0xff]),
    (-112, &[0x90]),
    (-113, &[0x87, 0x70]),
    (
        i64::MAX,
        &[0x88, 0x7f, 0xff, 0xff, 0xff, 0xff, 0xff, 0xff, 0xff],
    ),
    (
        i64::MIN,
        &[0x80, 0x7f, 0xff, 0xff, 0xff, 0xff, 0xff, 0xff, 0xff],
    ),
];

#[test]
fn numbers_both_ways(rt: HostRuntime) -> Result<(), Fail> {
    for (value, bytes) in NUMBERS {
        let mut out = Blob::copy_of(rt.alloc(), b"x")?;
        put_vlong(&mut out, value)?;
        assert_eq!(rt; &out.as_slice()[1..], bytes);
        assert_eq!(rt; get_vlong(out.as_slice(), 1), Ok((value, bytes.len())));
    }
    Ok(())
}

/// Bytes that begin with no number: cut off, with a byte turned, too long, or beyond the limit. Where bytes are
/// missing and those that are there are wrong already, the missing ones are told.
const FAULTS: [(&[u8], WireError); 9] = [
    (&[], WireError::Short(1)),
    (&[0x8f], WireError::Short(1)),
    (&[0x8e, 0x00], WireError::Short(1)),
    (&[0x88], WireError::Short(8)),
    (&[0x80, 0xff, 0xff], WireError::Short(6)),
    (&[0x8f, 0x7f], WireError::Overlong),
    (&[0x87, 0x6f], WireError::Overlong),
    (&[0x8e, 0x00, 0x80], WireError::Overlong),
    (&[0x88, 0x80, 0, 0, 0, 0, 0, 0, 0], WireError::Overlong),
];

#[test]
fn refuses_numbers(rt: HostRuntime) -> Result<(), Fail> {
    for (bytes, fault) in FAULTS {
        assert_eq!(rt; get_vlong(bytes, 0), Err(fault));
    }
    Ok(())
}

/// The faults and how they are printed.
const PRINTED: [(WireError, &str); 4] = [
    (WireError::Short(3), "3 bytes are missing at least"),
    (WireError::Overlong, "a number is spelled too long"),
    (WireError::BadWire(11), "the tag 11 is of no field"),
    (WireError::NoMemory, "no memory was left"),
];

#[test]
fn prints_faults(rt: HostRuntime) -> Result<(), Fail> {
    for (fault, text) in PRINTED {
        let printed = format!(in rt.alloc(); "{fault}")?;
        assert_eq!(rt; printed.as_str(), text);
    }
    Ok(())
}
