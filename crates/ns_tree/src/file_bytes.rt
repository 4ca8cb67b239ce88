//! The bytes of a file.
ghost use Rattle.std.specs.Prelude.{◌≡◌, ◌≤◌, ◌++◌, [], IfOk, OnOk, OnErr, length, take, drop};
ghost use Rattle.ns_tree.specs.FileBytes.{joined};

use bytes::Bytes;
use hb_wire::{Copied, NoMemory};
use std::alloc::{AllocError, Global};
use std::marker::Model;

/// The bytes of a file. They are kept in pieces, so that adding to a file costs what is added, and a part of
/// one piece is shared and not copied.
#[derive(Drop)]
pub struct FileBytes {
    pieces: Vec<Bytes>,
    len: u64,
}

impl Model for FileBytes {
    ghost use Rattle.std.specs.Prelude.{◌≡◌, ℕ, List, length};
    ghost use Rattle.ns_tree.specs.FileBytes.{joined};

    ghost Value = { List ℕ };

    ghost view = { λ b. joined b.pieces.items };

    ghost invariant = { λ b. b.len ≡ length (joined b.pieces.items) };
}

#[tactic(auto, using(crate::proofs::Pieces::joined_push))]
impl FileBytes {
    /// No bytes.
    pub fn new(alloc: Global) -> FileBytes
        ensures { result ≡ [] }
    {
        FileBytes {
            pieces: Vec::new(alloc),
            len: 0,
        }
    }

    /// These bytes, which are shared and not copied.
    pub fn of(alloc: Global, bytes: Bytes) -> Result<FileBytes, NoMemory>
        ensures { IfOk result (λ all. all ≡ bytes) }
    {
        let mut all = FileBytes::new(alloc);
        all.add_piece(bytes)?;
        Ok(all)
    }

    /// How many bytes there are.
    pub fn len(&self) -> u64
        ensures { result ≡ length self.now }
    {
        self.len
    }

    /// Adds bytes at the end. Without memory for them nothing changes.
    pub fn add(&mut self, alloc: Global, bytes: &[u8]) -> Result<(), NoMemory>
        ensures ok { OnOk result (self.new ≡ self.old ++ bytes.now) }
        ensures err { OnErr result (self.new ≡ self.old) }
    {
        self.add_piece(Bytes::copy_from_slice(alloc, bytes)?)
    }

    fn add_piece(&mut self, piece: Bytes) -> Result<(), NoMemory>
        ensures ok { OnOk result (self.new ≡ self.old ++ piece) }
        ensures err { OnErr result (self.new ≡ self.old) }
    {
        let Some(len) = self.len.checked_add(piece.len() as u64) else {
            return Err(AllocError);
        };
        self.pieces.push(piece)?;
        self.len = len;
        Ok(())
    }

    /// The bytes from a position on, at most so many. Where one piece has them all they are shared, and else
    /// copied.
    pub fn read(&self, alloc: Global, at: u64, len: usize) -> Result<Bytes, NoMemory>
        ensures { IfOk result (λ bytes. bytes ≡ take len (drop at self.now)) }
    {
        let (number, start) = reached(self.pieces.as_slice(), at);
        let rest = &self.pieces.as_slice()[number..];
        match rest {
            [] => Ok(Bytes::new()),
            [first, behind @ ..] => {
                if behind.is_empty() || start.saturating_add(len as u64) <= first.len() as u64 {
                    shared(first, start, len)
                } else {
                    copied(alloc, rest, start, len)
                }
            }
        }
    }
}

impl Copied for FileBytes {
    /// Shares the bytes.
    fn copy(&self) -> Result<FileBytes, NoMemory> {
        let mut pieces = Vec::with_capacity(*self.pieces.allocator(), self.pieces.len())?;
        for piece in &self.pieces {
            pieces.push(piece.clone()?)?;
        }
        Ok(FileBytes {
            pieces,
            len: self.len,
        })
    }
}

// The first piece that reaches past a position, by its number, and how far into it the position is.
fn reached(pieces: &[Bytes], at: u64) -> (usize, u64)
    ensures within { result.0 ≤ length pieces.now }
    ensures rest { drop at (joined pieces.now) ≡ drop result.1 (joined (drop result.0 pieces.now)) }
{
    let mut skip = at;
    for (number, piece) in pieces.iter().enumerate() {
        if skip < piece.len() as u64 {
            return (number, skip);
        }
        skip -= piece.len() as u64;
    }
    (pieces.len(), skip)
}

// The bytes of a piece from a position on, at most so many. They are shared.
fn shared(piece: &Bytes, at: u64, len: usize) -> Result<Bytes, NoMemory>
    ensures { IfOk result (λ bytes. bytes ≡ take len (drop at piece.now)) }
{
    if at >= piece.len() as u64 {
        return Ok(Bytes::new());
    }
    let start = at as usize;
    let end = start + len.min(piece.len() - start);
    piece.slice(start..end)
}

// The bytes of pieces from a position on, at most so many, in one piece.
fn copied(alloc: Global, pieces: &[Bytes], at: u64, len: usize) -> Result<Bytes, NoMemory>
    ensures { IfOk result (λ bytes. bytes ≡ take len (drop at (joined pieces.now))) }
{
    let mut all = Vec::new(alloc);
    let mut skip = at;
    for piece in pieces {
        let room = len.saturating_sub(all.len());
        all.extend_from_slice(part(piece.as_slice(), skip, room))?;
        skip = skip.saturating_sub(piece.len() as u64);
    }
    Ok(Bytes::from_vec(all)?)
}

// The bytes from a position on, at most so many.
fn part(bytes: &[u8], at: u64, len: usize) -> &[u8]
    ensures { result.now ≡ take len (drop at bytes.now) }
{
    if at >= bytes.len() as u64 {
        return &[];
    }
    let start = at as usize;
    let end = start + len.min(bytes.len() - start);
    &bytes[start..end]
}
