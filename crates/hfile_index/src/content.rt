//! The contents of nodes, written.
ghost use Rattle.std.specs.Prelude.{◌≡◌, ◌≤◌, ◌++◌, length, IfOk, OnOk};
ghost use Rattle.std.specs.List.{flat_map};
ghost use Rattle.hb_wire.specs.Fixed.{be_bytes};
ghost use Rattle.hfile_index.specs.Short.{HasShortKey, HaveShortKeys};
ghost use Rattle.hfile_index.specs.Written.{root_entry_bytes, root_bytes, node_entry_bytes, places_from, node_bytes};

use crate::IndexEntry;
use hb_wire::{Blob, NoMemory, put_u32, put_u64, put_vlong};
use std::alloc::Global;

/// Adds the place and the size of an entry.
fn put_place(out: &mut Blob, entry: &IndexEntry) -> Result<(), NoMemory>
    ensures { OnOk result (out.new ≡ out.old ++ (be_bytes 8 entry.now.offset ++ be_bytes 4 entry.now.size)) }
{
    put_u64(out, entry.offset)?;
    put_u32(out, entry.size)
}

/// Adds an entry of a root.
fn put_root_entry(out: &mut Blob, entry: &IndexEntry) -> Result<(), NoMemory>
    requires { HasShortKey entry.now }
    ensures { OnOk result (out.new ≡ out.old ++ root_entry_bytes entry.now) }
{
    put_place(out, entry)?;
    put_vlong(out, entry.key.len() as i64)?;
    out.add(entry.key.as_slice())
}

/// Adds an entry of another node.
fn put_node_entry(out: &mut Blob, entry: &IndexEntry) -> Result<(), NoMemory>
    ensures { OnOk result (out.new ≡ out.old ++ node_entry_bytes entry.now) }
{
    put_place(out, entry)?;
    out.add(entry.key.as_slice())
}

/// The entries of a root.
pub fn root_content(alloc: Global, entries: &[IndexEntry]) -> Result<Blob, NoMemory>
    requires { HaveShortKeys entries.now }
    ensures { IfOk result (λ content. content ≡ root_bytes entries.now) }
{
    let mut content = Blob::from_vec(Vec::new(alloc));
    for entry in entries {
        put_root_entry(&mut content, entry)?;
    }
    Ok(content)
}

/// Adds where each entry begins and where the last one ends, counted from the first one.
fn put_places(out: &mut Blob, entries: &[IndexEntry]) -> Result<(), NoMemory>
    requires short { HaveShortKeys entries.now }
    requires few { length entries.now ≤ 128 }
    ensures { OnOk result (out.new ≡ out.old ++ places_from 0 entries.now) }
{
    let mut place = 0;
    for entry in entries {
        put_u32(out, place)?;
        place += 12 + entry.key.len() as u32;
    }
    put_u32(out, place)
}

/// Adds the entries of another node than a root.
fn put_entries(out: &mut Blob, entries: &[IndexEntry]) -> Result<(), NoMemory>
    ensures { OnOk result (out.new ≡ out.old ++ flat_map node_entry_bytes entries.now) }
{
    for entry in entries {
        put_node_entry(out, entry)?;
    }
    Ok(())
}

/// The content of another node than a root, of at most 128 entries.
#[tactic(auto, unfolding(crate::specs::Written::node_bytes))]
pub fn node_content(alloc: Global, entries: &[IndexEntry]) -> Result<Blob, NoMemory>
    requires short { HaveShortKeys entries.now }
    requires few { length entries.now ≤ 128 }
    ensures { IfOk result (λ content. content ≡ node_bytes entries.now) }
{
    let mut content = Blob::from_vec(Vec::new(alloc));
    put_u32(&mut content, entries.len() as u32)?;
    put_places(&mut content, entries)?;
    put_entries(&mut content, entries)?;
    Ok(content)
}
