use super::*;
use crate::file::FileState;
use crate::file_bytes::FileBytes;
use hb_wire::Copied;
use std::alloc::Global;
use std::test::Fail;

// A writing call, by the texts of its places.
#[derive(Clone, Copy)]
enum Call {
    Create(&'static [u8], &'static [u8]),
    Append(&'static [u8], &'static [u8]),
    Rename(&'static [u8], &'static [u8]),
    Delete(&'static [u8]),
    Touch(&'static [u8], u64),
}

fn answer(ns: &mut MemNs, alloc: Global, call: Call) -> Result<Result<(), NsError>, Fail> {
    Ok(match call {
        Call::Create(place, bytes) => ns.create(&Place::read(alloc, place)?, bytes),
        Call::Append(place, bytes) => ns.append(&Place::read(alloc, place)?, bytes),
        Call::Rename(from, to) => {
            let from = Place::read(alloc, from)?;
            ns.rename(&from, &Place::read(alloc, to)?)
        }
        Call::Delete(place) => ns.delete(&Place::read(alloc, place)?),
        Call::Touch(place, moment) => ns.touch(&Place::read(alloc, place)?, moment),
    })
}

fn answers(ns: &mut MemNs, alloc: Global, table: &[Row]) -> Result<bool, Fail> {
    for (call, expected) in table {
        if answer(ns, alloc, *call)? != *expected {
            return Ok(false);
        }
    }
    Ok(true)
}

type Row = (Call, Result<(), NsError>);

// A file below a file, and a directory moved into itself. The fourth call fails with its effect, the fifth without.
const FIRST: [Row; 8] = [
    (Call::Create(b"a/b", b"xy"), Ok(())),
    (Call::Create(b"a/b/c", b""), Err(NsError::BelowFile)),
    (Call::Rename(b"a", b"a/c"), Err(NsError::Inside)),
    (Call::Append(b"a/b", b"z"), Err(NsError::Failed)),
    (Call::Delete(b"a/b"), Err(NsError::Failed)),
    (Call::Create(b"a", b""), Err(NsError::Exists)),
    (Call::Touch(b"a/b", 9), Ok(())),
    (Call::Create(b"a.b", b""), Ok(())),
];

// A rename, and every other refusal.
const SECOND: [Row; 9] = [
    (Call::Rename(b"a", b"d/e"), Ok(())),
    (Call::Rename(b"a", b"x"), Err(NsError::Missing)),
    (Call::Rename(b"d", b"a.b"), Err(NsError::Exists)),
    (Call::Rename(b"d", b"a.b/c"), Err(NsError::BelowFile)),
    (
        Call::Rename(b"d", b"1/2/3/4/5/6/7/8/9/0/1/2/3/4/5"),
        Err(NsError::Inside),
    ),
    (Call::Append(b"a/b", b"z"), Err(NsError::Missing)),
    (Call::Delete(b"a/b"), Err(NsError::Missing)),
    (Call::Touch(b"a/b", 9), Err(NsError::Missing)),
    (Call::Append(b"d/e/b", b"!"), Ok(())),
];

// A file as a test writes it down: its place's text, its bytes and its moment.
type Line = (&'static [u8], &'static [u8], u64);

// Whether a tree has these files and no others.
fn has_files(tree: &Tree, alloc: Global, files: &[Line]) -> Result<bool, Fail> {
    for (place, bytes, moment) in files {
        match tree.get(&Place::read(alloc, place)?) {
            Some(file) if file.moment == *moment => {
                if file.bytes.read(alloc, 0, usize::MAX)?.as_slice() != *bytes {
                    return Ok(false);
                }
            }
            _ => return Ok(false),
        }
    }
    Ok(tree.listing(None)?.len() == files.len())
}

fn tree_of(alloc: Global, files: &[Line]) -> Result<Tree, Fail> {
    let mut tree = Tree::new(alloc);
    for (place, bytes, moment) in files {
        let file = FileState {
            bytes: FileBytes::of(alloc, Bytes::copy_from_slice(alloc, bytes)?)?,
            moment: *moment,
        };
        tree.add(Place::read(alloc, place)?, file)?;
    }
    Ok(tree)
}

const FIRST_LINE: Line = (b"a/b", b"xy", 7);

const SECOND_LINE: Line = (b"a/c", b"z", 8);

const THIRD_LINE: Line = (b"d", b"", 9);

const STOOD: [Line; 3] = [FIRST_LINE, SECOND_LINE, THIRD_LINE];

// Each writing call, and the files that it leaves where it is done.
const EFFECTS: [(Call, &[Line]); 7] = [
    (
        Call::Create(b"e/f", b"new"),
        &[FIRST_LINE, SECOND_LINE, THIRD_LINE, (b"e/f", b"new", 0)],
    ),
    (
        Call::Append(b"a/b", b"z!"),
        &[(b"a/b", b"xyz!", 7), SECOND_LINE, THIRD_LINE],
    ),
    (
        Call::Rename(b"a", b"e/f"),
        &[(b"e/f/b", b"xy", 7), (b"e/f/c", b"z", 8), THIRD_LINE],
    ),
    (Call::Delete(b"a/c"), &[FIRST_LINE, THIRD_LINE]),
    (
        Call::Touch(b"d", 4),
        &[FIRST_LINE, SECOND_LINE, (b"d", b"", 4)],
    ),
    // Two that can't be done.
    (Call::Create(b"d/e", b"new"), &STOOD),
    (Call::Touch(b"f", 4), &STOOD),
];

// Whether a call on a store of the files that stood, which fails, leaves these files.
fn leaves(alloc: Global, call: Call, has_effect: bool, files: &[Line]) -> Result<bool, Fail> {
    let writes = Items::from_vec(vec![in alloc; (1, has_effect)]?);
    let mut ns = MemNs::new(tree_of(alloc, &STOOD)?, writes, Items::new(alloc));
    let is_failed = answer(&mut ns, alloc, call)? == Err(NsError::Failed);
    let is_counted = ns.faults() == 1;
    let tree = ns.into_tree();
    let is_left = has_files(&tree, alloc, files)?;
    Ok(is_failed && is_counted && is_left)
}

// A call that fails without effect leaves the files that stood, and one that fails with effect those that it leaves
// where it is done.
#[test]
fn fails_with_and_without_effect(rt: HostRuntime) -> Result<(), Fail> {
    let alloc = rt.alloc();
    for (call, files) in EFFECTS {
        assert!(rt; leaves(alloc, call, false, &STOOD)?);
        assert!(rt; leaves(alloc, call, true, files)?);
    }
    Ok(())
}

// A store with one file, made of some bytes and then added to.
fn written(alloc: Global, place: &Place, front: &[u8], back: &[u8]) -> Result<MemNs, Fail> {
    let mut ns = MemNs::new(Tree::new(alloc), Items::new(alloc), Items::new(alloc));
    ns.create(place, front)?;
    ns.append(place, back)?;
    Ok(ns)
}

// Whether a file has these bytes from a place on, and so many in all.
fn has_bytes(ns: &mut MemNs, place: &Place, at: u64, bytes: &[u8]) -> Result<bool, Fail> {
    let read = ns.read_at(place, at, bytes.len())?;
    Ok(read.as_slice() == bytes)
}

// Whether the copy of a file has its size.
fn copies(ns: &MemNs, place: &Place, size: u64) -> Result<bool, Fail> {
    let Some(file) = ns.tree().get(place) else {
        return Ok(false);
    };
    let copy = file.copy()?;
    Ok(copy.bytes.len() == size && copy.moment == 0)
}

// Files of few and of many bytes are made, added to, read and copied.
#[test]
fn reads_what_was_written(rt: HostRuntime) -> Result<(), Fail> {
    let alloc = rt.alloc();
    let place = Place::read(alloc, b"a/b")?;
    for (count, size) in [(0, 0), (1, 2), (70_000, 140_000)] {
        let front = vec![in alloc; 1; count]?;
        let back = vec![in alloc; 9; count]?;
        let mut ns = written(alloc, &place, front.as_slice(), back.as_slice())?;
        assert!(rt; has_bytes(&mut ns, &place, 0, front.as_slice())?);
        assert!(rt; has_bytes(&mut ns, &place, count as u64, back.as_slice())?);
        assert!(rt; copies(&ns, &place, size)?);
    }
    Ok(())
}

#[test]
fn says_why_a_call_is_refused(rt: HostRuntime) -> Result<(), Fail> {
    let texts = [
        (NsError::Missing, "no such file"),
        (NsError::Inside, "moved into itself or too deep"),
        (NsError::Exists, "something stands there"),
        (NsError::BelowFile, "below a file"),
        (NsError::Failed, "the store failed"),
        (NsError::NoMemory, "no memory"),
    ];
    for (error, text) in texts {
        assert_eq!(rt; format!(in rt.alloc(); "{error}")?.as_str(), text);
    }
    Ok(())
}

fn reads(ns: &mut MemNs, alloc: Global) -> Result<bool, Fail> {
    let place = Place::read(alloc, b"d/e/b")?;
    if ns.stat(&place)? != (Stat { size: 4, moment: 9 }) {
        return Ok(false);
    }
    let bytes = ns.read_at(&place, 1, 2)?;
    let rest = ns.read_at(&place, 3, 9)?;
    Ok(bytes.as_slice() == b"yz".as_slice() && rest.as_slice() == b"!".as_slice())
}

#[test]
fn answers_every_writing_call(rt: HostRuntime) -> Result<(), Fail> {
    let alloc = rt.alloc();
    let writes = Items::from_vec(vec![in alloc; (4, true), (5, false), (4, false)]?);
    let mut ns = MemNs::new(Tree::new(alloc), writes, Items::new(alloc));
    assert!(rt; answers(&mut ns, alloc, &FIRST)?);
    assert!(rt; answers(&mut ns, alloc, &SECOND)?);
    assert!(rt; reads(&mut ns, alloc)?);
    assert_eq!(rt; ns.faults(), 2);
    Ok(())
}

// Files are added, or refused, and listed below a directory. The third reading call fails.
#[test]
fn lists_what_was_added(rt: HostRuntime) -> Result<(), Fail> {
    let alloc = rt.alloc();
    let mut tree = Tree::new(alloc);
    let added = [
        (b"a/c/d".as_slice(), Ok(())),
        (b"a.b".as_slice(), Ok(())),
        (b"a/b".as_slice(), Ok(())),
        (b"a/b".as_slice(), Err(NsError::Exists)),
        (b"a/b/c".as_slice(), Err(NsError::BelowFile)),
    ];
    for (text, answer) in added {
        let file = FileState {
            bytes: FileBytes::new(alloc),
            moment: 7,
        };
        assert_eq!(rt; tree.add(Place::read(alloc, text)?, file), answer);
    }
    let dir = Place::read(alloc, b"a")?;
    let mut ns = MemNs::new(tree, Items::new(alloc), Items::from_vec(vec![in alloc; 3]?));
    let below = ns.list(Some(&dir))?;
    assert_eq!(rt; below.len(), 2);
    assert_eq!(rt; below.as_slice()[1].as_slice(), b"a/c/d".as_slice());
    let all = ns.list(None)?;
    assert_eq!(rt; all.as_slice()[0].as_slice(), b"a.b".as_slice());
    assert_eq!(rt; ns.read_at(&dir, 0, 1).is_err(), true);
    assert_eq!(rt; ns.faults(), 1);
    assert_eq!(rt; ns.list(None)?.len(), 3);
    assert_eq!(rt; ns.tree().get(&dir).is_none(), true);
    Ok(())
}
