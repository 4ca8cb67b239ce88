//! Makes, asks after, lists, renames and deletes the files of a store in memory, and adds to one of them a
//! thousand times. It says on standard error how long each takes.
#![tactic(auto)]

use hb_names::Place;
use hb_wire::Items;
use ns_tree::{MemNs, Namespace, Tree};
use std::alloc::Global;
use std::io;
use std::time::Instant;

const FILES: u32 = 200_000;

/// A place in a directory five deep.
fn place(alloc: Global, directory: &str, number: u32) -> Option<Place> {
    let text = format!(in alloc; "data/default/table/{directory}/family/{number:016}").ok()?;
    Place::read(alloc, text.as_bytes()).ok()
}

fn create_all(alloc: Global, store: &mut MemNs) -> Option<u64> {
    for number in 0..FILES {
        store
            .create(&place(alloc, "region", number)?, b"a file")
            .ok()?;
    }
    Some(0)
}

fn stat_all(alloc: Global, store: &mut MemNs) -> Option<u64> {
    let mut size = 0u64;
    for number in 0..FILES {
        let stat = store.stat(&place(alloc, "region", number)?).ok()?;
        size = size.saturating_add(stat.size);
    }
    Some(size)
}

fn list_all(store: &mut MemNs) -> Option<u64> {
    Some(store.list(None).ok()?.len() as u64)
}

fn rename_all(alloc: Global, store: &mut MemNs) -> Option<u64> {
    let from = Place::read(alloc, b"data/default/table/region").ok()?;
    let to = Place::read(alloc, b"data/default/table/other").ok()?;
    store.rename(&from, &to).ok()?;
    Some(0)
}

fn delete_all(alloc: Global, store: &mut MemNs) -> Option<u64> {
    for number in 0..FILES {
        store.delete(&place(alloc, "other", number)?).ok()?;
    }
    Some(0)
}

fn append_often(alloc: Global, store: &mut MemNs) -> Option<u64> {
    let place = Place::read(alloc, b"a/long/file").ok()?;
    store.create(&place, b"").ok()?;
    for _ in 0..1000 {
        store.append(&place, &[7; 4096]).ok()?;
    }
    Some(store.stat(&place).ok()?.size)
}

#[derive(Clone, Copy, Debug)]
enum Step {
    Create,
    Stat,
    List,
    Rename,
    Delete,
    Append,
}

const STEPS: [Step; 6] = [
    Step::Create,
    Step::Stat,
    Step::List,
    Step::Rename,
    Step::Delete,
    Step::Append,
];

/// Does one step on all files, and answers a number that depends on them.
fn run(alloc: Global, store: &mut MemNs, step: Step) -> Option<u64> {
    match step {
        Step::Create => create_all(alloc, store),
        Step::Stat => stat_all(alloc, store),
        Step::List => list_all(store),
        Step::Rename => rename_all(alloc, store),
        Step::Delete => delete_all(alloc, store),
        Step::Append => append_often(alloc, store),
    }
}

fn main(rt: HostRuntime) -> io::Result<()> {
    let alloc = rt.alloc();
    let mut store = MemNs::new(Tree::new(alloc), Items::new(alloc), Items::new(alloc));
    for step in STEPS {
        let start = Instant::now(&rt)?;
        let done = run(alloc, &mut store, step);
        let spent = start.elapsed(&rt)?;
        eprintln!(rt; "{step:?} {} ms", spent.as_millis())?;
        println!(rt; "{step:?} {done:?}")?;
    }
    Ok(())
}
