//! Row keys, their texts, and the next ones.

use crate::{next_row, read_row, row_grammar, write_row};
use hb_grammar::scan;
use hb_wire::{Blob, NoMemory};
use std::alloc::Global;
use std::test::Fail;

fn row_of(alloc: Global, text: &[u8]) -> Result<Option<Blob>, NoMemory> {
    match scan(row_grammar(), text) {
        Ok(()) => Ok(Some(read_row(alloc, text)?)),
        Err(_) => Ok(None),
    }
}

fn fault_of(text: &[u8]) -> Option<usize> {
    match scan(row_grammar(), text) {
        Ok(()) => None,
        Err(fault) => Some(fault.0),
    }
}

fn next_of(alloc: Global, row: &[u8]) -> Result<Option<Blob>, NoMemory> {
    if row.len() <= 32_767 {
        next_row(alloc, row)
    } else {
        Ok(None)
    }
}

/// A byte, so many times.
fn so_many(alloc: Global, byte: u8, count: usize) -> Result<Blob, NoMemory> {
    Ok(Blob::from_vec(vec![in alloc; byte; count]?))
}

/// Two texts, one behind the other.
fn joined(front: &Blob, back: &[u8]) -> Result<Blob, NoMemory> {
    let mut text = Blob::copy_of(front.allocator(), front.as_slice())?;
    text.add(back)?;
    Ok(text)
}

#[test]
fn rows_and_their_texts(rt: HostRuntime) -> Result<(), Fail> {
    let alloc = rt.alloc();
    let long = so_many(alloc, 0x33, 32_767)?;
    let digits = so_many(alloc, b'3', 65_534)?;
    let table: [(&[u8], &[u8]); 4] = [
        (b"", b"-"),
        (b"m", b"6d"),
        (b"\x00\xff", b"00ff"),
        (long.as_slice(), digits.as_slice()),
    ];
    for (row, text) in table {
        let mut out = Blob::copy_of(alloc, b"")?;
        write_row(row, &mut out)?;
        assert!(rt; out.as_slice() == text);
        let read = row_of(alloc, text)?;
        assert!(rt; read == Some(Blob::copy_of(alloc, row)?));
    }
    let more = joined(&digits, b"33")?;
    assert_eq!(rt; fault_of(more.as_slice()), Some(65_534));
    Ok(())
}

#[test]
fn texts_of_no_row(rt: HostRuntime) -> Result<(), Fail> {
    let table: [(&[u8], usize); 5] = [(b"", 0), (b"--", 1), (b"6", 1), (b"6D", 1), (b"6d 6d", 2)];
    for (text, place) in table {
        assert_eq!(rt; fault_of(text), Some(place));
    }
    Ok(())
}

#[test]
fn the_next_row(rt: HostRuntime) -> Result<(), Fail> {
    let alloc = rt.alloc();
    let shorter = so_many(alloc, 255, 32_766)?;
    let highest = joined(&shorter, b"\xff")?;
    let behind = joined(&shorter, b"\x00")?;
    let letters = so_many(alloc, b'a', 32_766)?;
    let last = joined(&letters, b"b")?;
    let next = joined(&letters, b"c")?;
    let low = joined(&Blob::copy_of(alloc, b"a")?, shorter.as_slice())?;
    let table: [(&[u8], Option<&[u8]>); 5] = [
        (b"m", Some(b"m\x00")),
        (shorter.as_slice(), Some(behind.as_slice())),
        (highest.as_slice(), None),
        (last.as_slice(), Some(next.as_slice())),
        (low.as_slice(), Some(b"b")),
    ];
    for (row, wanted) in table {
        let found = next_of(alloc, row)?;
        assert!(rt; found.as_ref().map(|next| next.as_slice()) == wanted);
    }
    Ok(())
}
