use crate::{Outcome, hbase, hbase_program};
use hb_causes::{ListClock, MemSink, MemSource, OpenGate};
use hb_names::Place;
use hb_wire::Items;
use ns_tree::{FileBytes, FileState, MemNs, Tree};
use std::alloc::Global;
use std::io;
use std::io::ErrorKind;
use std::process::Abort;
use std::test::Fail;

// A run: its words and input, the places of the store's files, the calls of the source, the sink and the
// store that fail, and what it must answer and write.
#[derive(Clone, Copy)]
struct Case {
    words: &'static [&'static str],
    input: &'static [u8],
    places: &'static [&'static [u8]],
    source: &'static [u64],
    sink: &'static [u64],
    store: &'static [u64],
    status: u8,
    written: &'static [u8],
}

const SCRIPT: Case = Case {
    words: &["mem", "script"],
    input: b"list_snapshots\n",
    places: &[],
    source: &[],
    sink: &[],
    store: &[],
    status: 0,
    written: b"0 snapshots\n",
};

fn store_of(alloc: Global, places: &[&[u8]], reads: &[u64]) -> Result<MemNs, Fail> {
    let mut tree = Tree::new(alloc);
    for text in places {
        let file = FileState {
            bytes: FileBytes::new(alloc),
            moment: 0,
        };
        tree.add(Place::read(alloc, text)?, file)?;
    }
    let reads = Items::from_vec(Vec::from_slice(alloc, reads)?);
    Ok(MemNs::new(tree, Items::new(alloc), reads))
}

// The run's status, and what it wrote in pieces of one byte.
fn answer(alloc: Global, case: &Case) -> Result<(u8, Vec<u8>), Fail> {
    let mut words = Vec::new(alloc);
    for word in case.words {
        words.push(String::from_str(alloc, word)?)?;
    }
    let mut input = MemSource::new(
        Vec::from_slice(alloc, case.input)?,
        5,
        Vec::from_slice(alloc, case.source)?,
    );
    let mut output = MemSink::new(alloc, 200, 1, Vec::from_slice(alloc, case.sink)?)?;
    let outcome: Outcome<MemNs, MemNs, ListClock> = hbase(
        alloc,
        words.as_slice(),
        &mut input,
        &mut output,
        store_of(alloc, case.places, case.store)?,
        store_of(alloc, &[], &[])?,
        ListClock::new(Vec::new(alloc)),
        &OpenGate,
    );
    Ok((outcome.status, output.into_bytes()))
}

fn try_each(rt: &impl Abort, alloc: Global, cases: &[Case]) -> Result<(), Fail> {
    for case in cases {
        let (status, written) = answer(alloc, case)?;
        assert_eq!(rt; written.as_slice(), case.written);
        assert_eq!(rt; status, case.status);
    }
    Ok(())
}

#[test]
fn lists_the_snapshots(rt: HostRuntime) -> Result<(), Fail> {
    let cases = [
        SCRIPT,
        Case {
            input: b"list_snapshots",
            ..SCRIPT
        },
        Case {
            words: &["mem", "script", "--ttl", "0", "--rounds=2", "--tick", "7"],
            ..SCRIPT
        },
        // A snapshot that is still being taken is none.
        Case {
            places: &[b".hbase-snapshot/.tmp/s1/.snapshotinfo"],
            ..SCRIPT
        },
        Case {
            places: &[
                b".hbase-snapshot/b/.snapshotinfo",
                b".hbase-snapshot/a/data.manifest",
            ],
            written: b"a\nb\n2 snapshots\n",
            ..SCRIPT
        },
        // Names stand in their own order, which is not that of the places: a slash comes after a dash and a dot.
        Case {
            places: &[
                b".hbase-snapshot/a/data.manifest",
                b".hbase-snapshot/a/.snapshotinfo",
                b".hbase-snapshot/a.b/data.manifest",
                b".hbase-snapshot/a-b/data.manifest",
                b".hbase-snapshot/-a/data.manifest",
                b".hbase-snapshot/c",
                b"data/d/e",
            ],
            written: b"a\na-b\na.b\n3 snapshots\n",
            ..SCRIPT
        },
        // A name of the greatest length.
        Case {
            places: &[
                b".hbase-snapshot/0123456789012345678901234567890123456789012345678901234567890123456789012345678901234567890123456789/x",
            ],
            written: b"0123456789012345678901234567890123456789012345678901234567890123456789012345678901234567890123456789\n1 snapshots\n",
            ..SCRIPT
        },
        // The store is read once for all lines: a second call would fail.
        Case {
            input: b"list_snapshots\n# again\n\nlist_snapshots \r\n\r\nlist_snapshots",
            places: &[b".hbase-snapshot/a/x"],
            store: &[2],
            written: b"a\n1 snapshots\na\n1 snapshots\na\n1 snapshots\n",
            ..SCRIPT
        },
        // Nothing is asked, so the store is not read.
        Case {
            input: b"",
            store: &[1],
            written: b"",
            ..SCRIPT
        },
        Case {
            input: b"# nothing\n\r\n",
            store: &[1],
            written: b"",
            ..SCRIPT
        },
    ];
    try_each(&rt, rt.alloc(), &cases)
}

#[test]
fn says_why_it_lists_nothing(rt: HostRuntime) -> Result<(), Fail> {
    let bad_script = Case {
        status: 1,
        written: b"error BadScript session 0 line 1 column 1\n",
        ..SCRIPT
    };
    let usage = Case {
        status: 2,
        written: b"error Usage\n",
        ..SCRIPT
    };
    let cases = [
        Case {
            input: b"scan t",
            ..bad_script
        },
        Case {
            input: b"list_snapshot",
            written: b"error BadScript session 0 line 1 column 14\n",
            ..bad_script
        },
        Case {
            input: b"list_snapshots\n\n#\nlist_snapshots now\nscan",
            written: b"error BadScript session 0 line 4 column 16\n",
            ..bad_script
        },
        Case {
            input: b"list_snapshots\r\r\n",
            store: &[1],
            written: b"error BadScript session 0 line 1 column 15\n",
            ..bad_script
        },
        Case {
            input: b"=== a\n",
            ..bad_script
        },
        Case {
            words: &["mem"],
            ..usage
        },
        Case {
            words: &["mem", "script", "--tick", "0"],
            ..usage
        },
        Case {
            words: &["mem", "script", "script"],
            source: &[1],
            ..usage
        },
        Case {
            source: &[1],
            status: 3,
            written: b"error ReadFault\n",
            ..SCRIPT
        },
        Case {
            sink: &[2],
            status: 4,
            written: b"0",
            ..SCRIPT
        },
        Case {
            store: &[1],
            status: 5,
            written: b"error NsFault\n",
            ..SCRIPT
        },
    ];
    try_each(&rt, rt.alloc(), &cases)
}

// The status and the output of a run on an input of so many empty lines.
fn long_answer(alloc: Global, length: usize) -> Result<(u8, Vec<u8>), Fail> {
    let mut words = Vec::new(alloc);
    for word in ["mem", "script"] {
        words.push(String::from_str(alloc, word)?)?;
    }
    let mut bytes = Vec::new(alloc);
    bytes.resize(length, b'\n')?;
    let mut input = MemSource::new(bytes, 70_000, Vec::new(alloc));
    let mut output = MemSink::new(alloc, 100, 9, Vec::new(alloc))?;
    let outcome: Outcome<MemNs, MemNs, ListClock> = hbase(
        alloc,
        words.as_slice(),
        &mut input,
        &mut output,
        store_of(alloc, &[], &[])?,
        store_of(alloc, &[], &[])?,
        ListClock::new(Vec::new(alloc)),
        &OpenGate,
    );
    Ok((outcome.status, output.into_bytes()))
}

// An input of 16 MiB is read, and one of a byte more is too long.
#[test]
fn reads_up_to_16_mib(rt: HostRuntime) -> Result<(), Fail> {
    let most = long_answer(rt.alloc(), 16_777_216)?;
    assert_eq!(rt; most.0, 0);
    assert_eq!(rt; most.1.as_slice(), b"".as_slice());
    let more = long_answer(rt.alloc(), 16_777_217)?;
    assert_eq!(rt; more.0, 1);
    assert_eq!(rt; more.1.as_slice(), b"error TooLong\n".as_slice());
    Ok(())
}

// The status and the output of the program on what the system gave as its words.
fn program_answer(alloc: Global, words: io::Result<Vec<String>>) -> Result<(u8, Vec<u8>), Fail> {
    let mut input = MemSource::new(Vec::from_slice(alloc, SCRIPT.input)?, 5, Vec::new(alloc));
    let mut output = MemSink::new(alloc, 100, 9, Vec::new(alloc))?;
    let outcome: Outcome<MemNs, MemNs, ListClock> = hbase_program(
        alloc,
        words,
        &mut input,
        &mut output,
        store_of(alloc, &[], &[])?,
        store_of(alloc, &[], &[])?,
        ListClock::new(Vec::new(alloc)),
        &OpenGate,
    );
    Ok((outcome.status, output.into_bytes()))
}

// The words behind the program's name, none at all, words that are no text, and none for want of memory.
#[test]
fn runs_on_the_words_of_the_system(rt: HostRuntime) -> Result<(), Fail> {
    let alloc = rt.alloc();
    let mut words = Vec::new(alloc);
    for word in ["./hbase", "mem", "script"] {
        words.push(String::from_str(alloc, word)?)?;
    }
    let cases = [
        (Ok(words), 0, b"0 snapshots\n".as_slice()),
        (Ok(Vec::new(alloc)), 2, b"error Usage\n".as_slice()),
        (
            Err(ErrorKind::InvalidData.into()),
            2,
            b"error Usage\n".as_slice(),
        ),
        (
            Err(ErrorKind::OutOfMemory.into()),
            8,
            b"error NoMemory\n".as_slice(),
        ),
    ];
    for (words, status, written) in cases {
        let answer = program_answer(alloc, words)?;
        assert_eq!(rt; answer.0, status);
        assert_eq!(rt; answer.1.as_slice(), written);
    }
    Ok(())
}
