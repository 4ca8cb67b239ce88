//! Which bytes are store lists, and where others leave the grammar.

use crate::{RegionList, newest};
use commit_line::ListError;
use hb_names::Place;
use hb_wire::{Blob, Copied, Items};
use std::alloc::Global;
use std::test::Fail;

/// An entry of each kind.
const THREE: &[u8] = b"list 1\nseq 3\n\
own f 00000000000000010000000000000002\n\
link f t=00000000000000010000000000000002-00000000000000010000000000000002\n\
half g 00000000000000010000000000000002.00000000000000010000000000000002\n\
end\n";

/// The place of a fault, if there is one.
fn place_of(found: Result<RegionList, ListError>) -> Option<u64> {
    match found {
        Err(ListError::BadList(place)) => Some(place),
        _ => None,
    }
}

/// A list that is read, copied and written.
fn list_again(alloc: Global, bytes: &[u8]) -> Result<Blob, Fail> {
    let list = RegionList::decode(alloc, bytes)?.copy()?;
    if list.is_valid() {
        Ok(list.encode(alloc)?)
    } else {
        Ok(Blob::copy_of(alloc, b"no valid list")?)
    }
}

#[test]
fn lists_are_read_copied_and_written(rt: HostRuntime) -> Result<(), Fail> {
    let alloc = rt.alloc();
    let lists: [&[u8]; 3] = [
        b"list 1\nseq 3\nend\n",
        b"list 9223372036854775807\nseq 0\nend\n",
        THREE,
    ];
    for bytes in lists {
        assert_eq!(rt; list_again(alloc, bytes)?.as_slice(), bytes);
    }
    let list = RegionList::read(alloc, 1, THREE)?;
    assert_eq!(rt; list.entries.len(), 3);
    for entry in list.entries.as_slice() {
        assert!(rt; entry.copy()? == *entry);
    }
    Ok(())
}

/// The number that is asked for comes before any fault behind it, and behind one in its own line.
#[test]
fn another_number_comes_first(rt: HostRuntime) -> Result<(), Fail> {
    let files: [(u64, &[u8], u64); 4] = [
        (2, THREE, 0),
        (2, b"list 1\nend\n", 0),
        (1, b"list 1\nend\n", 7),
        (2, b"list 01\nseq 3\nend\n", 5),
    ];
    for (number, bytes, place) in files {
        assert_eq!(rt;
            place_of(RegionList::read(rt.alloc(), number, bytes)),
            Some(place)
        );
    }
    Ok(())
}

/// Files with a byte turned or left out, lines exchanged, a name of another kind, and their faults.
const FAULTS: [(&[u8], u64); 9] = [
    (b"seq 3\nlist 1\nend\n", 0),
    (b"list 0\nseq 3\nend\n", 5),
    (b"list 1\nend\n", 7),
    (b"list 1\nseq 9223372036854775808\nend\n", 29),
    (b"list 1\nseq 3\nowl f ", 15),
    (b"list 1\nseq 3\nend\nx", 17),
    (b"list 1\nseq 3\nhalf .f ", 18),
    (b"list 1\nseq 3\nown f 0000", 23),
    (b"list 1\nseq 3\nlink f 0000\nend\n", 24),
];

#[test]
fn the_place_of_a_fault(rt: HostRuntime) -> Result<(), Fail> {
    for (bytes, place) in FAULTS {
        assert_eq!(rt;
            place_of(RegionList::decode(rt.alloc(), bytes)),
            Some(place)
        );
    }
    Ok(())
}

#[test]
fn the_newest_has_the_greatest_number(rt: HostRuntime) -> Result<(), Fail> {
    let alloc = rt.alloc();
    let mut places = Items::new(alloc);
    assert_eq!(rt; newest(&places), None);
    for place in [
        b".filelist/10".as_slice(),
        b".filelist/9",
        b".filelist/x11",
        b"011",
    ] {
        assert!(rt; places.push(Place::read(alloc, place)?).is_ok());
    }
    assert_eq!(rt; newest(&places), Some(10));
    Ok(())
}
