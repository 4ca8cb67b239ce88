//! Which bytes are names, where others leave the grammar, and what is made of names.

use crate::{
    BadName, Encoded, FamilyName, NameError, Place, RegionName, SnapName, TableName, encode_region,
};
use hb_wire::{Blob, Copied};
use std::alloc::Global;
use std::test::Fail;

fn place_of(parsed: Result<&[u8], BadName>) -> Option<usize> {
    match parsed {
        Ok(_) => None,
        Err(bad) => Some(bad.0),
    }
}

#[test]
fn the_place_of_a_fault(rt: HostRuntime) {
    let long = [b'a'; 128];
    let tables: [(&[u8], Option<usize>); 5] = [
        (b"t.1", None),
        (b"", Some(0)),
        (b"-t", Some(0)),
        (b"t/", Some(1)),
        (&long[..101], Some(100)),
    ];
    for (text, fault) in tables {
        assert_eq!(rt; place_of(TableName::parse(text)), fault);
    }
    let families: [(&[u8], Option<usize>); 5] = [
        (b"-f", None),
        (&long[..127], None),
        (b".f", Some(0)),
        (b"f:q", Some(1)),
        (&long, Some(127)),
    ];
    for (text, fault) in families {
        assert_eq!(rt; place_of(FamilyName::parse(text)), fault);
    }
    let encoded: [(&[u8], Option<usize>); 4] = [
        (b"0123456789abcdef0123456789abcdef", None),
        (b"0123456789ABCDEF0123456789abcdef", Some(10)),
        (b"0123456789abcdef0123456789abcde", Some(31)),
        (b"0123456789abcdef0123456789abcdef0", Some(32)),
    ];
    for (text, fault) in encoded {
        assert_eq!(rt; place_of(Encoded::parse(text)), fault);
    }
}

/// A place that is read, copied, and written behind `>`.
fn place_again(alloc: Global, bytes: &[u8]) -> Result<Blob, Fail> {
    let mut out = Blob::copy_of(alloc, b">")?;
    let place = Place::read(alloc, bytes)?;
    Place::from_blob(place.copy()?.into_blob()).write(&mut out)?;
    Ok(out)
}

/// The same of a table's name, which is also made of bytes that are known to be one.
fn table_again(alloc: Global, bytes: &[u8]) -> Result<Blob, Fail> {
    let mut out = Blob::copy_of(alloc, b">")?;
    let name = TableName::read(alloc, bytes)?;
    TableName::copy_of(alloc, name.as_slice())?
        .copy()?
        .write(&mut out)?;
    Ok(out)
}

/// The same of a snapshot's.
fn snap_again(alloc: Global, bytes: &[u8]) -> Result<Blob, Fail> {
    let mut out = Blob::copy_of(alloc, b">")?;
    SnapName::read(alloc, bytes)?.copy()?.write(&mut out)?;
    Ok(out)
}

/// The same of a family's.
fn family_again(alloc: Global, bytes: &[u8]) -> Result<Blob, Fail> {
    let mut out = Blob::copy_of(alloc, b">")?;
    let name = FamilyName::read(alloc, bytes)?;
    FamilyName::copy_of(alloc, name.as_slice())?
        .copy()?
        .write(&mut out)?;
    Ok(out)
}

/// The same of an encoded one.
fn encoded_again(alloc: Global, bytes: &[u8]) -> Result<Blob, Fail> {
    let mut out = Blob::copy_of(alloc, b">")?;
    let name = Encoded::read(alloc, bytes)?;
    Encoded::copy_of(alloc, name.as_slice())?
        .copy()?
        .write(&mut out)?;
    Ok(out)
}

/// Behind `>`, and as it was.
fn marked(alloc: Global, bytes: &[u8]) -> Result<Blob, Fail> {
    let mut out = Blob::copy_of(alloc, b">")?;
    out.add(bytes)?;
    Ok(out)
}

#[test]
fn names_are_read_copied_and_written(rt: HostRuntime) -> Result<(), Fail> {
    let alloc = rt.alloc();
    let long = [b'a'; 255];
    for bytes in [b"a/b".as_slice(), &long] {
        assert!(rt; place_again(alloc, bytes)? == marked(alloc, bytes)?);
    }
    for bytes in [b"t".as_slice(), &long[..100]] {
        assert!(rt; table_again(alloc, bytes)? == marked(alloc, bytes)?);
        assert!(rt; snap_again(alloc, bytes)? == marked(alloc, bytes)?);
    }
    for bytes in [b"f".as_slice(), &long[..127]] {
        assert!(rt; family_again(alloc, bytes)? == marked(alloc, bytes)?);
    }
    let digits = b"0123456789abcdef0123456789abcdef";
    assert!(rt; encoded_again(alloc, digits)? == marked(alloc, digits)?);
    assert!(rt; Place::read(alloc, b"a/b")? < Place::read(alloc, b"a0b")?);
    Ok(())
}

#[test]
fn a_region_is_encoded(rt: HostRuntime) -> Result<(), Fail> {
    let alloc = rt.alloc();
    let long = [b'k'; 300];
    let table: [(&[u8], u64, &[u8]); 2] = [
        (b"", 4_294_967_297, b"9f17f9fc01258e59b4bf2e99f8590819"),
        (&long, u64::MAX, b"6c3032d622e210ee3e5313c769946778"),
    ];
    for (start, id, digits) in table {
        let name = RegionName {
            table: TableName::read(alloc, b"t")?,
            start: Blob::copy_of(alloc, start)?,
            id,
        };
        assert_eq!(rt; encode_region(alloc, &name.copy()?)?.as_slice(), digits);
    }
    Ok(())
}

#[test]
fn the_texts_of_errors(rt: HostRuntime) -> Result<(), Fail> {
    let bad = NameError::from(BadName(3)).to_string(rt.alloc())?;
    assert_eq!(rt; bad.as_str(), "bad name after 3 bytes");
    let none = NameError::NoMemory.to_string(rt.alloc())?;
    assert_eq!(rt; none.as_str(), "no memory");
    Ok(())
}
