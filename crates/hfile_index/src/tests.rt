use super::*;
use hb_wire::{Blob, Items, NoMemory, put_u64};
use std::alloc::Global;
use std::test::Fail;

/// What a test compares of entries: how many there are, and of the last one the place, the size and the key's length.
type Told = (usize, u64, u32, usize);

/// What the entries tell.
fn told(entries: &[IndexEntry]) -> Told {
    match entries {
        [] => (0, 0, 0, 0),
        [.., last] => (entries.len(), last.offset, last.size, last.key.len()),
    }
}

/// What a root tells, or none where it is no root of so many entries.
fn root(alloc: Global, content: &[u8], count: u32) -> Option<Told> {
    match root_entries(alloc, content, count) {
        Ok(entries) => Some(told(entries.as_slice())),
        Err(_fault) => None,
    }
}

/// What another node tells.
fn node(alloc: Global, content: &[u8]) -> Option<Told> {
    match node_entries(alloc, content) {
        Ok(entries) => Some(told(entries.as_slice())),
        Err(_fault) => None,
    }
}

/// A root with the entry of the block at 0, whose first cell has the row `r`.
const ONE: &[u8; 28] = b"\0\0\0\0\0\0\0\0\0\0\0\x3a\x0f\0\x01r\x01fq\0\0\0\0\0\0\0\x05\x04";
/// A root with an entry whose key is shortened to the row `s`.
const SHORTENED: &[u8; 26] =
    b"\0\0\0\0\0\0\0\x3a\0\0\0\x3a\x0d\0\x01s\0\x7f\xff\xff\xff\xff\xff\xff\xff\xff";
/// The same with the type code 5, which no key has.
const OF_NO_TYPE: &[u8; 26] =
    b"\0\0\0\0\0\0\0\x3a\0\0\0\x3a\x0d\0\x01s\0\x7f\xff\xff\xff\xff\xff\xff\xff\x05";
/// The same with a timestamp of 2 ^ 63.
const LATE: &[u8; 26] = b"\0\0\0\0\0\0\0\x3a\0\0\0\x3a\x0d\0\x01s\0\x80\0\0\0\0\0\0\0\xff";
/// The same without a row.
const WITHOUT_A_ROW: &[u8; 25] =
    b"\0\0\0\0\0\0\0\x3a\0\0\0\x3a\x0c\0\0\0\x7f\xff\xff\xff\xff\xff\xff\xff\xff";
/// The first one with the length of its key in two bytes.
const OVERLONG: &[u8; 29] =
    b"\0\0\0\0\0\0\0\0\0\0\0\x3a\x8f\x0f\0\x01r\x01fq\0\0\0\0\0\0\0\x05\x04";
/// The first one with a middle key behind it.
const WITH_MIDDLE: &[u8; 44] =
    b"\0\0\0\0\0\0\0\0\0\0\0\x3a\x0f\0\x01r\x01fq\0\0\0\0\0\0\0\x05\x04\0\0\0\0\0\0\0\x07\0\0\0\x3d\0\0\0\0";

/// Contents of roots with a count, and what they tell.
const ROOTS: [(&[u8], u32, Option<Told>); 12] = [
    (ONE, 1, Some((1, 0, 58, 15))),
    (SHORTENED, 1, Some((1, 58, 58, 13))),
    (WITH_MIDDLE, 1, Some((1, 0, 58, 15))),
    (b"", 0, Some((0, 0, 0, 0))),
    (ONE, 0, None),
    (ONE, 2, None),
    (ONE, u32::MAX, None),
    (OF_NO_TYPE, 1, None),
    (LATE, 1, None),
    (WITHOUT_A_ROW, 1, None),
    (OVERLONG, 1, None),
    (b"", 1, None),
];

#[test]
fn reads_roots(rt: HostRuntime) -> Result<(), Fail> {
    for (content, count, expected) in ROOTS {
        assert!(rt; root(rt.alloc(), content, count) == expected);
    }
    for len in 0..ONE.len() {
        assert!(rt; root(rt.alloc(), &ONE[..len], 1) == None);
    }
    Ok(())
}

/// Another node with the entry of the first root.
const LEAF: &[u8; 39] =
    b"\0\0\0\x01\0\0\0\0\0\0\0\x1b\0\0\0\0\0\0\0\0\0\0\0\x3a\0\x01r\x01fq\0\0\0\0\0\0\0\x05\x04";
/// The same with a first place that is not 0.
const LATER: &[u8; 39] =
    b"\0\0\0\x01\0\0\0\x01\0\0\0\x1c\0\0\0\0\0\0\0\0\0\0\0\x3a\0\x01r\x01fq\0\0\0\0\0\0\0\x05\x04";
/// The same with a count at its type's last value.
const TOO_MANY: &[u8; 39] =
    b"\xff\xff\xff\xff\0\0\0\0\0\0\0\x1b\0\0\0\0\0\0\0\0\0\0\0\x3a\0\x01r\x01fq\0\0\0\0\0\0\0\x05\x04";
/// The same with an end at its type's last value.
const TOO_LONG: &[u8; 39] =
    b"\0\0\0\x01\0\0\0\0\xff\xff\xff\xff\0\0\0\0\0\0\0\0\0\0\0\x3a\0\x01r\x01fq\0\0\0\0\0\0\0\x05\x04";
/// The same with a byte behind it.
const MORE: &[u8; 40] =
    b"\0\0\0\x01\0\0\0\0\0\0\0\x1b\0\0\0\0\0\0\0\0\0\0\0\x3a\0\x01r\x01fq\0\0\0\0\0\0\0\x05\x04\0";

/// Contents of other nodes, and what they tell.
const NODES: [(&[u8], Option<Told>); 6] = [
    (LEAF, Some((1, 0, 58, 15))),
    (b"\0\0\0\0\0\0\0\0", Some((0, 0, 0, 0))),
    (LATER, None),
    (TOO_MANY, None),
    (TOO_LONG, None),
    (MORE, None),
];

#[test]
fn reads_nodes(rt: HostRuntime) -> Result<(), Fail> {
    for (content, expected) in NODES {
        assert!(rt; node(rt.alloc(), content) == expected);
    }
    for len in 0..LEAF.len() {
        assert!(rt; node(rt.alloc(), &LEAF[..len]) == None);
    }
    Ok(())
}

/// An entry of the block with this number, each of 58 bytes, whose first cell has the number for its row.
fn entry(alloc: Global, block: u64) -> Result<IndexEntry, NoMemory> {
    let mut key = Blob::copy_of(alloc, b"\0\x08")?;
    put_u64(&mut key, block)?;
    key.add(b"\x01fq\0\0\0\0\0\0\0\x05\x04")?;
    Ok(IndexEntry {
        offset: block.wrapping_mul(58),
        size: 58,
        key,
    })
}

/// The index of so many such entries.
fn index_of(alloc: Global, blocks: u64) -> Result<WrittenIndex, NoMemory> {
    let mut builder = IndexBuilder::new(alloc);
    for block in 0..blocks {
        let entry = entry(alloc, block)?;
        if entry.key.len() <= MAX_KEY {
            builder.add(entry)?;
        }
    }
    builder.finish()
}

/// What the nodes of a level tell.
fn told_nodes(alloc: Global, nodes: &Items<Blob>) -> Result<Vec<Option<Told>>, NoMemory> {
    let mut told = Vec::new(alloc);
    for content in nodes.as_slice() {
        told.push(node(alloc, content.as_slice()))?;
    }
    Ok(told)
}

/// Whether the last bytes are these.
fn ends_with(bytes: &[u8], tail: &[u8]) -> bool {
    bytes.len() >= tail.len() && &bytes[bytes.len() - tail.len()..] == tail
}

#[test]
fn builds_roots(rt: HostRuntime) -> Result<(), Fail> {
    let none = index_of(rt.alloc(), 0)?;
    assert!(rt; none.root.is_empty() && none.leaves.is_empty() && none.levels == 1);
    let full = index_of(rt.alloc(), 128)?;
    assert!(rt; full.leaves.is_empty() && full.intermediates.is_empty());
    assert!(rt; full.count == 128 && full.levels == 1);
    assert!(rt; root(rt.alloc(), full.root.as_slice(), 128) == Some((128, 127 * 58, 58, 22)));
    Ok(())
}

#[test]
fn builds_two_levels(rt: HostRuntime) -> Result<(), Fail> {
    let index = index_of(rt.alloc(), 129)?;
    let leaves = told_nodes(rt.alloc(), &index.leaves)?;
    assert!(rt;
        leaves.as_slice() == [Some((128, 127 * 58, 58, 22)), Some((1, 128 * 58, 58, 22))].as_slice()
    );
    assert!(rt; index.intermediates.is_empty() && index.count == 2 && index.levels == 2);
    // The first leaf has 4 + 4 * 129 + 128 * 34 bytes, and 33 of its header.
    assert!(rt; root(rt.alloc(), index.root.as_slice(), 2) == Some((2, 129 * 58 + 4905, 79, 22)));
    // The middle one is the block 64, the 65th of the first leaf.
    assert!(rt;
        ends_with(
            index.root.as_slice(),
            b"\0\0\0\0\0\0\x1d\x3a\0\0\x13\x29\0\0\0\x40"
        )
    );
    Ok(())
}

#[test]
fn builds_three_levels(rt: HostRuntime) -> Result<(), Fail> {
    let index = index_of(rt.alloc(), 128 * 128 + 1)?;
    assert!(rt; index.leaves.len() == 129 && index.intermediates.len() == 2);
    assert!(rt; index.count == 2 && index.levels == 3);
    let above = told_nodes(rt.alloc(), &index.intermediates)?;
    let leaf_129 = (128 * 128 + 1) * 58 + 128 * 4905;
    assert!(rt;
        above.as_slice()
            == [
                Some((128, leaf_129 - 4905, 4905, 22)),
                Some((1, leaf_129, 79, 22))
            ]
            .as_slice()
    );
    assert!(rt;
        root(rt.alloc(), index.root.as_slice(), 2) == Some((2, leaf_129 + 79 + 4905, 79, 22))
    );
    Ok(())
}
