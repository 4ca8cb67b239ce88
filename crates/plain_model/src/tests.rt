//! Conflicts of every pair of kinds of holds.

use crate::{Hold, RegionKey};
use hb_names::{Encoded, SnapName, TableName};
use std::alloc::Global;
use std::test::Fail;

fn key(alloc: Global) -> Result<RegionKey, Fail> {
    let region = Encoded::read(alloc, b"0123456789abcdef0123456789abcdef")?;
    let table = TableName::read(alloc, b"t")?;
    Ok(RegionKey { table, region })
}

/// The hold of a kind, from 0 to 8: on one table, its region, and one snapshot.
fn hold(alloc: Global, kind: usize) -> Result<Hold, Fail> {
    Ok(match kind {
        0 => Hold::Table(TableName::read(alloc, b"t")?),
        1 => Hold::Region(key(alloc)?),
        2 => Hold::Flush(key(alloc)?),
        3 => Hold::Compact(key(alloc)?),
        4 => Hold::Load(TableName::read(alloc, b"t")?),
        5 => Hold::Take(SnapName::read(alloc, b"s")?, TableName::read(alloc, b"t")?),
        6 => Hold::Use(SnapName::read(alloc, b"s")?),
        7 => Hold::Erase(SnapName::read(alloc, b"s")?),
        _ => Hold::Pass,
    })
}

/// Whether the text has a mark at a place.
fn is_marked(text: &[u8], at: usize) -> bool {
    match text.get(at) {
        Some(byte) => *byte == b'x',
        None => false,
    }
}

#[test]
fn conflicts_of_each_pair(rt: HostRuntime) -> Result<(), Fail> {
    let alloc = rt.alloc();
    // a row for each kind that is asked for: Table, Region, Flush, Compact, Load, Take, Use, Erase, Pass
    let expected: [&[u8]; 9] = [
        b"xxxxxx...",
        b"xxxxxx...",
        b"xxx..x...",
        b"xx.x.....",
        b"xx.......",
        b"xxx..x.x.",
        b".......x.",
        b".....xxx.",
        b".....x..x",
    ];
    for (kind, row) in expected.iter().enumerate() {
        let asked = hold(alloc, kind)?;
        for at in 0..9 {
            let live = hold(alloc, at)?;
            assert_eq!(rt; asked.conflicts(&live), is_marked(row, at));
        }
    }
    Ok(())
}
