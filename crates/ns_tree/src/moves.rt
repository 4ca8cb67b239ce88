//! How the files at or below a place move.
ghost use Rattle.std.specs.Prelude.{◌≡◌, ℕ, List, true, All, IfOk, OnOk, OnErr, IfSome, IsTrue, map, take};
ghost use Rattle.std.specs.FinMap as finite;
ghost use Rattle.std.specs.List.{list_any};
ghost use Rattle.ns_tree.specs.Moves.{move_of, is_source, AreSources, IsMove, IsMovable, IsCopied, IsClearedOfSources, IsClearedOfTargets};
ghost use Rattle.ns_tree.specs.Places.{is_within, is_too_deep, target_of};
ghost use Rattle.ns_tree.specs.Step.{moved};
ghost use Rattle.ns_tree.specs.Tree.{IsTree};

use crate::files::Files;
use crate::places::component_count;
use hb_names::{MAX_COMPONENTS, Place};
use hb_wire::{Blob, Copied, Items, NoMemory};
use std::alloc::Global;

/// A file's text and where it goes.
#[derive(Drop)]
pub(crate) struct Move {
    old: Blob,
    new: Blob,
}

/// Where each of these places goes.
pub(crate) fn moves(
    alloc: Global,
    from: &Place,
    to: &Place,
    sources: Items<Place>,
) -> Result<Vec<Move>, NoMemory>
    ensures { IfOk result (λ moves. moves.items ≡ map (move_of from.now to.now) sources) }
{
    let mut moves = Vec::with_capacity(alloc, sources.len())?;
    for place in sources.into_vec() {
        let new = target_of(alloc, from, to, &place)?;
        moves.push(Move {
            old: place.into_blob(),
            new,
        })?;
    }
    Ok(moves)
}

fn target_of(alloc: Global, from: &Place, to: &Place, place: &Place) -> Result<Blob, NoMemory>
    ensures { IfOk result (λ target. target ≡ target_of from.now to.now place.now) }
{
    let mut target = Blob::copy_of(alloc, to.as_slice())?;
    let text = place.as_slice();
    let front = from.as_slice().len().min(text.len());
    target.add(&text[front..])?;
    Ok(target)
}

/// Whether a file would stand deeper than a place may.
pub(crate) fn has_too_deep(moves: &[Move]) -> bool
    ensures { result ≡ list_any (λ m. is_too_deep m.new) moves.now }
{
    moves
        .iter()
        .any(|m| component_count(m.new.as_slice()) > MAX_COMPONENTS)
}

impl Files {
    /// The places of the files at or below a place.
    pub(crate) fn sources(&self, from: &Place) -> Result<Items<Place>, NoMemory>
        requires { IsTree self.now }
        ensures { IfOk result (AreSources from.now self.now) }
    {
        if !self.has(from.as_blob()) {
            return Ok(self.places_below(from)?);
        }
        let mut places = Vec::new(self.allocator());
        places.push(from.copy()?)?;
        Ok(Items::from_vec(places))
    }

    /// Moves files. Without memory for it nothing changes.
    pub(crate) fn move_all(
        &mut self,
        from: &Place,
        to: &Place,
        moves: &[Move],
    ) -> Result<(), NoMemory>
        requires each { All (IsMove from.now to.now self.old) moves.now }
        requires whole { (q : List ℕ) → is_within from.now q ≡ true → finite.contains_key self.old q ≡ true → is_source moves.now q ≡ true }
        requires movable { IsMovable from.now to.now self.old }
        ensures ok { OnOk result (self.new ≡ moved from.now to.now self.old) }
        ensures err { OnErr result (self.new ≡ self.old) }
    {
        match self.copy_all(from, to, moves) {
            Ok(()) => {
                self.clear_sources(moves);
                Ok(())
            }
            Err(error) => {
                self.clear_targets(moves);
                Err(error)
            }
        }
    }

    // Gives each target the file of its source. Where memory ends, the first so many have theirs.
    fn copy_all(&mut self, from: &Place, to: &Place, moves: &[Move]) -> Result<(), NoMemory>
        requires each { All (IsMove from.now to.now self.old) moves.now }
        requires movable { IsMovable from.now to.now self.old }
        ensures ok { OnOk result (IsCopied from.now to.now moves.now self.old self.new) }
        ensures err { OnErr result ((n : ℕ) × IsCopied from.now to.now (take n moves.now) self.old self.new) }
    {
        for m in moves {
            self.copy_file(m)?;
        }
        Ok(())
    }

    fn copy_file(&mut self, m: &Move) -> Result<(), NoMemory>
        requires { IsTrue (finite.contains_key self.old m.now.old) }
        ensures ok { OnOk result (IfSome (finite.get self.old m.now.old) (λ file. self.new ≡ finite.insert self.old m.now.new file)) }
        ensures err { OnErr result (self.new ≡ self.old) }
    {
        let Some(file) = self.get(&m.old) else {
            unreachable!()
        };
        let file = file.copy()?;
        self.put(m.new.copy()?, file)
    }

    fn clear_sources(&mut self, moves: &[Move])
        ensures { IsClearedOfSources moves.now self.old self.new }
    {
        for m in moves {
            let _ = self.take(&m.old);
        }
    }

    fn clear_targets(&mut self, moves: &[Move])
        ensures { IsClearedOfTargets moves.now self.old self.new }
    {
        for m in moves {
            let _ = self.take(&m.new);
        }
    }
}
