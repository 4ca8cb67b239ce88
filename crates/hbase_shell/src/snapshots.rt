//! The snapshots of a store.
ghost use Rattle.std.specs.Prelude.{◌≡◌, ◌≤◌, ◌⊎◌, ◌↔◌, ℕ, List, IfOk, IfErr, IfSome, IfNone, OnOk, IsTrue, codes, Any, position};
ghost use Rattle.std.specs.Result.{IsErrOf};
ghost use Rattle.std.specs.List.Sorted.{IsStrictlySortedBy};
ghost use Rattle.std.specs.Ordering.{nat_cmp};
ghost use Rattle.std.specs.Cmp.Lexicographic.{slice_cmp};
ghost use Rattle.hb_causes.specs.Faults.{Rose};
ghost use Rattle.std.specs.BTreeSet.{contains};
ghost use Rattle.hbase_shell.specs.Snapshots.{is_slash, IsInDirectory, IsInSnapshot, IsListing, listing_text};

use crate::run_error::RunError;
use hb_names::{NameError, Place, SnapName};
use hb_wire::{Blob, Items, NoMemory};
use ns_tree::{Namespace, NsError};
use std::alloc::{AllocError, Global};
use std::collections::BTreeSet;

/// The directory that holds a directory for each snapshot, and its slash.
const SNAPSHOTS: &[u8] = b".hbase-snapshot/";

/// Lists the snapshots of a store as text, from one listing of its files.
pub(crate) fn list_snapshots<N: Namespace>(alloc: Global, store: &mut N) -> Result<Blob, RunError>
    ensures ok { IfOk result (λ text. IsListing (N.told store.old) text) }
    ensures fault { IsErrOf result RunError.NsFault → Rose (N.faults store.old) (N.faults store.new) }
    ensures only { IfErr result (λ error. (error ≡ RunError.NsFault) ⊎ (error ≡ RunError.NoMemory)) }
    ensures same { N.told store.new ≡ N.told store.old }
    ensures later { N.faults store.old ≤ N.faults store.new }
{
    let directory = snapshots_directory(alloc)?;
    let places = match store.list(Some(&directory)) {
        Ok(places) => places,
        Err(NsError::NoMemory) => return Err(RunError::NoMemory),
        Err(_) => return Err(RunError::NsFault),
    };
    let names = snapshot_names(alloc, places.as_slice())?;
    Ok(listing_of(alloc, &names)?)
}

// The place of the snapshots' directory.
fn snapshots_directory(alloc: Global) -> Result<Place, NoMemory>
    ensures { IfOk result (λ place. place ≡ codes ".hbase-snapshot") }
{
    match Place::read(alloc, b".hbase-snapshot") {
        Ok(place) => Ok(place),
        Err(NameError::NoMemory) => Err(AllocError),
        Err(NameError::Bad(_)) => unreachable!(),
    }
}

// The names of the snapshots in whose directories the places lie.
fn snapshot_names(alloc: Global, places: &[Place]) -> Result<BTreeSet<SnapName>, NoMemory>
    ensures names { IfOk result (λ names. (name : List ℕ) → IsTrue (contains (slice_cmp nat_cmp) names name) ↔ Any (IsInSnapshot name) places.now) }
    ensures in_order { IfOk result (λ names. IsStrictlySortedBy (slice_cmp nat_cmp) names.keys) }
{
    let mut names = BTreeSet::new(alloc);
    for place in places {
        add_snapshot(alloc, &mut names, place)?;
    }
    Ok(names)
}

// Adds the name of the snapshot in whose directory a place lies.
fn add_snapshot(
    alloc: Global,
    names: &mut BTreeSet<SnapName>,
    place: &Place,
) -> Result<(), NoMemory>
    ensures names { OnOk result ((name : List ℕ) → IsTrue (contains (slice_cmp nat_cmp) names.new name)
        ↔ (IsTrue (contains (slice_cmp nat_cmp) names.old name) ⊎ IsInSnapshot name place.now)) }
    ensures in_order { IsStrictlySortedBy (slice_cmp nat_cmp) names.old.keys → IsStrictlySortedBy (slice_cmp nat_cmp) names.new.keys }
{
    if let Some(name) = snapshot_of(alloc, place)? {
        names.insert(name)?;
    }
    Ok(())
}

// The snapshot in whose directory a place lies.
fn snapshot_of(alloc: Global, place: &Place) -> Result<Option<SnapName>, NoMemory>
    ensures { IfOk result (λ found. (name : List ℕ) → (found ≡ Some name) ↔ IsInSnapshot name place.now) }
{
    let Some(name) = directory_name(place.as_slice()) else {
        return Ok(None);
    };
    match SnapName::read(alloc, name) {
        Ok(name) => Ok(Some(name)),
        Err(NameError::Bad(_)) => Ok(None),
        Err(NameError::NoMemory) => Err(AllocError),
    }
}

// The component below the snapshots' directory, of a place that goes on behind it.
fn directory_name(place: &[u8]) -> Option<&[u8]>
    ensures found { IfSome result (λ name. IsInDirectory name.now place.now) }
    ensures none { IfNone result ((name : List ℕ) → IsInDirectory name place.now → ⊥) }
{
    let rest = place.strip_prefix(SNAPSHOTS)?;
    let end = slash_at(rest)?;
    Some(&rest[..end])
}

// Where the first slash stands.
fn slash_at(text: &[u8]) -> Option<usize>
    ensures { result ≡ position is_slash text.now }
{
    text.iter().position(|byte| *byte == b'/')
}

// The names, a line each, and their number.
fn listing_of(alloc: Global, names: &BTreeSet<SnapName>) -> Result<Blob, NoMemory>
    ensures { IfOk result (λ text. text ≡ listing_text names.now.keys) }
{
    let mut text = Blob::from_vec(Vec::new(alloc));
    for name in names {
        name.write(&mut text)?;
        text.add(b"\n")?;
    }
    let last = format!(in alloc; "{} snapshots\n", names.len())?;
    text.add(last.as_bytes())?;
    Ok(text)
}
