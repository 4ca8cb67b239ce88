//! Which bytes are names, what their parts are, and where others leave the grammar.

ghost use Rattle.std.specs.Prelude.{◌≡◌, ◌≤◌, IfSome, true};

use crate::{BackRef, FileName, FileParts, LinkName, RefName};
use hb_names::{BadName, Encoded, NameError, TableName};
use hb_wire::{Blob, Copied, NoMemory};
use std::alloc::Global;
use std::test::Fail;

const DIGITS: &[u8] = b"00000000000000010000000000000002";

/// The greatest sequence number.
const SEQ_MAX: u64 = 9_223_372_036_854_775_807;

/// Whether a name can have the number.
fn is_seq(seq: Option<u64>) -> bool
    ensures { result ≡ true → IfSome seq (λ n. n ≤ 9_223_372_036_854_775_807) }
{
    match seq {
        None => true,
        Some(seq) => seq <= SEQ_MAX,
    }
}

fn place_of<T: Drop>(parsed: Result<T, BadName>) -> Option<usize> {
    match parsed {
        Ok(_) => None,
        Err(bad) => Some(bad.0),
    }
}

fn behind_digits(alloc: Global, rest: &[u8]) -> Result<Blob, NoMemory> {
    let mut text = Blob::copy_of(alloc, DIGITS)?;
    text.add(rest)?;
    Ok(text)
}

fn front(text: &[u8], len: usize) -> &[u8] {
    if len <= text.len() {
        &text[..len]
    } else {
        text
    }
}

fn made(alloc: Global) -> Result<RefName, NameError> {
    let region = Encoded::read(alloc, DIGITS)?;
    let table = TableName::read(alloc, b"t")?;
    let file = FileName::read(alloc, DIGITS)?;
    let link = LinkName::new(alloc, &table, &region, &file)?;
    Ok(RefName::of_link(alloc, &link, &region)?.copy()?)
}

#[test]
fn the_place_of_a_fault_in_a_file_name(rt: HostRuntime) -> Result<(), Fail> {
    let table: [(&[u8], Option<usize>); 7] = [
        (b"", None),
        (b"A", Some(32)),
        (b"_SeqId_07_", Some(40)),
        (b"_SeqId__", Some(39)),
        (b"_SeqId_7", Some(40)),
        (b"_SeqId_7_x", Some(41)),
        (b"_SeqId_9223372036854775808_", Some(57)),
    ];
    for (rest, fault) in table {
        let text = behind_digits(rt.alloc(), rest)?;
        assert_eq!(rt; place_of(FileName::parse(text.as_slice())), fault);
    }
    Ok(())
}

/// A file name that is read, copied and written.
fn file_again(alloc: Global, bytes: &[u8]) -> Result<Blob, Fail> {
    let mut out = Blob::copy_of(alloc, b"")?;
    FileName::read(alloc, bytes)?.copy()?.write(&mut out)?;
    Ok(out)
}

/// The name of parts that can have one.
fn name_of(alloc: Global, parts: FileParts) -> Result<Option<FileName>, NoMemory> {
    if is_seq(parts.seq) {
        Ok(Some(FileName::new(alloc, parts)?))
    } else {
        Ok(None)
    }
}

#[test]
fn file_names_are_made_read_copied_and_written(rt: HostRuntime) -> Result<(), Fail> {
    let table: [(&[u8], Option<u64>); 3] = [
        (b"", None),
        (b"_SeqId_7_", Some(7)),
        (b"_SeqId_9223372036854775807_", Some(SEQ_MAX)),
    ];
    for (rest, seq) in table {
        let text = behind_digits(rt.alloc(), rest)?;
        let parts = FileParts {
            epoch: 1,
            counter: 2,
            seq,
        };
        assert_eq!(rt; FileName::parse(text.as_slice()), Ok(parts));
        assert!(rt; file_again(rt.alloc(), text.as_slice())? == text);
        let made = name_of(rt.alloc(), parts)?;
        assert!(rt; made.as_ref().map(|name| name.as_slice()) == Some(text.as_slice()));
    }
    Ok(())
}

/// A link's name that is read, copied and written.
fn link_again(alloc: Global, bytes: &[u8]) -> Result<Blob, Fail> {
    let mut out = Blob::copy_of(alloc, b"")?;
    LinkName::read(alloc, bytes)?.copy()?.write(&mut out)?;
    Ok(out)
}

/// The same of a reference's.
fn reference_again(alloc: Global, bytes: &[u8]) -> Result<Blob, Fail> {
    let mut out = Blob::copy_of(alloc, b"")?;
    RefName::read(alloc, bytes)?.copy()?.write(&mut out)?;
    Ok(out)
}

/// The same of a back reference's.
fn back_again(alloc: Global, bytes: &[u8]) -> Result<Blob, Fail> {
    let mut out = Blob::copy_of(alloc, b"")?;
    BackRef::read(alloc, bytes)?.copy()?.write(&mut out)?;
    Ok(out)
}

/// The name of a link, made of its parts.
fn link_of(alloc: Global, table: &[u8], file: &[u8]) -> Result<LinkName, NameError> {
    let table = TableName::read(alloc, table)?;
    let region = Encoded::read(alloc, DIGITS)?;
    let file = FileName::read(alloc, file)?;
    Ok(LinkName::new(alloc, &table, &region, &file)?)
}

/// The name of a reference to a half of a file, made of its parts.
fn half_of(alloc: Global, file: &[u8]) -> Result<RefName, NameError> {
    let region = Encoded::read(alloc, DIGITS)?;
    let file = FileName::read(alloc, file)?;
    Ok(RefName::of_file(alloc, &file, &region)?)
}

/// Two texts with a mark between them.
fn joined(alloc: Global, front: &[u8], mark: &[u8], back: &[u8]) -> Result<Blob, NoMemory> {
    let mut text = Blob::copy_of(alloc, front)?;
    text.add(mark)?;
    text.add(back)?;
    Ok(text)
}

/// Whether a link's name is what its parts make, and the same once it is read, copied and written.
fn is_link_kept(alloc: Global, table: &[u8], file: &[u8]) -> Result<bool, Fail> {
    let behind = joined(alloc, DIGITS, b"-", file)?;
    let text = joined(alloc, table, b"=", behind.as_slice())?;
    let made = link_of(alloc, table, file)?;
    let again = link_again(alloc, text.as_slice())?;
    Ok(made.as_slice() == text.as_slice() && again == text)
}

/// The same of a reference's name.
fn is_half_kept(alloc: Global, file: &[u8]) -> Result<bool, Fail> {
    let text = joined(alloc, file, b".", DIGITS)?;
    let made = half_of(alloc, file)?;
    let again = reference_again(alloc, text.as_slice())?;
    Ok(made.as_slice() == text.as_slice() && again == text)
}

/// The same of a back reference's.
fn is_back_kept(alloc: Global, table: &[u8]) -> Result<bool, Fail> {
    let text = joined(alloc, DIGITS, b".", table)?;
    let again = back_again(alloc, text.as_slice())?;
    Ok(again == text)
}

#[test]
fn links_and_references_are_made_read_copied_and_written(rt: HostRuntime) -> Result<(), Fail> {
    let alloc = rt.alloc();
    let long = [b't'; 100];
    let suffixed = behind_digits(alloc, b"_SeqId_9223372036854775807_")?;
    assert!(rt; is_link_kept(alloc, b"t", DIGITS)?);
    assert!(rt; is_link_kept(alloc, &long, suffixed.as_slice())?);
    assert!(rt; is_half_kept(alloc, DIGITS)?);
    assert!(rt; is_half_kept(alloc, suffixed.as_slice())?);
    assert!(rt; is_back_kept(alloc, b"t")?);
    assert!(rt; is_back_kept(alloc, &long)?);
    Ok(())
}

#[test]
fn the_place_of_a_fault_in_a_back_reference(rt: HostRuntime) -> Result<(), Fail> {
    let table: [(&[u8], Option<usize>); 4] = [
        (b".t", None),
        (b".", Some(33)),
        (b".-t", Some(33)),
        (b"=", Some(32)),
    ];
    for (rest, fault) in table {
        let text = behind_digits(rt.alloc(), rest)?;
        assert_eq!(rt; place_of(BackRef::parse(text.as_slice())), fault);
    }
    Ok(())
}

#[test]
fn the_places_of_faults_in_a_link_and_a_reference(rt: HostRuntime) -> Result<(), Fail> {
    let half = made(rt.alloc())?;
    let text = half.as_slice();
    let links: [(&[u8], Option<usize>); 4] = [
        (front(text, 67), None),
        (front(text, 66), Some(66)),
        (front(text, 34), Some(34)),
        (b"t==", Some(2)),
    ];
    for (bytes, fault) in links {
        assert_eq!(rt; place_of(LinkName::parse(bytes)), fault);
    }
    let digits = behind_digits(rt.alloc(), b"_Seq=")?;
    let halves: [(&[u8], Option<usize>); 5] = [
        (text, None),
        (front(text, 99), Some(99)),
        (front(text, 67), Some(67)),
        (b"=", Some(0)),
        (digits.as_slice(), Some(37)),
    ];
    for (bytes, fault) in halves {
        assert_eq!(rt; place_of(RefName::parse(bytes)), fault);
    }
    Ok(())
}
