//! Which bytes are region sets, and where others leave the grammar.

use crate::{RegionSet, SetState};
use commit_line::ListError;
use hb_names::TableName;
use hb_wire::{Blob, Copied};
use std::alloc::Global;
use std::test::Fail;

const SET: &[u8] =
    b"set 1\nenabled\nfamily f 3\nfamily g 1\nregion 7 open - 6d\nregion 6 split 6d -\nend\n";

/// The place of a fault, if there is one.
fn place_of(found: Result<RegionSet, ListError>) -> Option<u64> {
    match found {
        Err(ListError::BadList(place)) => Some(place),
        _ => None,
    }
}

/// A set that is read, copied and written.
fn set_again(alloc: Global, table: &TableName, bytes: &[u8]) -> Result<Blob, Fail> {
    let set = RegionSet::decode(alloc, table, bytes)?.copy()?;
    if set.is_valid() {
        Ok(set.encode(alloc)?)
    } else {
        Ok(Blob::copy_of(alloc, b"no valid set")?)
    }
}

#[test]
fn sets_are_read_copied_and_written(rt: HostRuntime) -> Result<(), Fail> {
    let alloc: Global = rt.alloc();
    let table = TableName::read(alloc, b"t")?;
    let sets: [&[u8]; 4] = [
        b"set 1\ndropped\nend\n",
        b"set 9223372036854775807\ndisabled\nend\n",
        b"set 3\nenabled\nregion 18446744073709551615 open - -\nend\n",
        SET,
    ];
    for bytes in sets {
        assert_eq!(rt; set_again(alloc, &table, bytes)?.as_slice(), bytes);
    }
    let set = RegionSet::read(alloc, 1, &table, SET)?;
    assert_eq!(rt; set.schema.families.len(), 2);
    assert_eq!(rt; set.regions.len(), 2);
    assert!(rt; SetState::Dropped.copy()?.is_dropped());
    Ok(())
}

/// A set's file of 300 families and 300 regions.
fn many_lines(alloc: Global) -> Result<Blob, Fail> {
    let mut text = Blob::copy_of(alloc, b"set 2\nenabled\n")?;
    for number in 1_000..1_300 {
        text.add(format!(in alloc; "family f{number} 1\n")?.as_bytes())?;
    }
    for number in 1_000..1_300 {
        text.add(format!(in alloc; "region {number} open - -\n")?.as_bytes())?;
    }
    text.add(b"end\n")?;
    Ok(text)
}

#[test]
fn sets_of_many_lines_are_read_and_written(rt: HostRuntime) -> Result<(), Fail> {
    let table = TableName::read(rt.alloc(), b"t")?;
    let bytes = many_lines(rt.alloc())?;
    assert!(rt; set_again(rt.alloc(), &table, bytes.as_slice())? == bytes);
    Ok(())
}

/// The number that is asked for comes before any fault behind it, and behind one in its own line.
#[test]
fn another_number_comes_first(rt: HostRuntime) -> Result<(), Fail> {
    let alloc: Global = rt.alloc();
    let table = TableName::read(alloc, b"t")?;
    let files: [(u64, &[u8], u64); 4] = [
        (2, SET, 0),
        (2, b"set 1\nenable\nend\n", 0),
        (1, b"set 1\nenable\nend\n", 12),
        (2, b"set 01\nenabled\nend\n", 4),
    ];
    for (number, bytes, place) in files {
        assert_eq!(rt;
            place_of(RegionSet::read(alloc, number, &table, bytes)),
            Some(place)
        );
    }
    Ok(())
}

/// Files with a byte turned or left out, lines exchanged, and bytes behind the end, with their faults.
const FAULTS: [(&[u8], u64); 10] = [
    (b"set 01\nenabled\nend\n", 4),
    (b"set 1\nenable\nend\n", 12),
    (b"set 1\ndropped\nfamily f 3\nend\n", 14),
    (b"set 1\nenabled\nfamily g 1\nfamily f 3\nend\n", 32),
    (b"set 1\nenabled\nfamily f 0\nend\n", 23),
    (
        b"set 1\nenabled\nregion 7 open 6d -\nregion 6 open 6d -\nend\n",
        49,
    ),
    (b"set 1\nenabled\nregion 7 op", 25),
    (b"set 1\nenabled\nregion 7 open 6 -\nend\n", 29),
    (b"set 1\ndisabled\nend\nx", 19),
    (
        b"set 1\nenabled\nregion 18446744073709551616 open - -\nend\n",
        40,
    ),
];

#[test]
fn the_place_of_a_fault(rt: HostRuntime) -> Result<(), Fail> {
    let table = TableName::read(rt.alloc(), b"t")?;
    for (bytes, place) in FAULTS {
        assert_eq!(rt;
            place_of(RegionSet::decode(rt.alloc(), &table, bytes)),
            Some(place)
        );
    }
    Ok(())
}
