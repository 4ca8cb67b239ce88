//! Sessions, line by line.
ghost use Rattle.std.specs.Prelude.{◌≡◌, ◌≤◌, ◌<◌, ◌⊎◌, ◌∷◌, ℕ, List, false, true, IfOk, IfErr, OnOk, length, map};
ghost use Rattle.std.specs.Str.{bytes_eq};
ghost use Rattle.hb_grammar.specs.Grammar.{IsFault};
ghost use Rattle.shell_line.specs.declared.line_kind.LineKind.{LineKind};
ghost use Rattle.shell_line.specs.Line.{IsLine};
ghost use Rattle.shell_script.specs.Block.{IsBlock, begins, block_name, is_used};
ghost use Rattle.shell_script.specs.Session.{Adds, Begins, IsAdded, IsAllowed, IsGood, IsRefused, IsTaken, name_of, names_begun};

use crate::block::{block_name, check_block};
use crate::lines::NumberedLine;
use crate::session::{NumberedJob, Session};
use hb_grammar::Fault;
use hb_wire::{Blob, Items, NoMemory};
use shell_lang::{LineError, read_line};
use shell_line::LineKind;
use std::alloc::Global;

/// Why a line is not read.
#[derive(Clone, Copy, Debug, PartialEq, Eq)]
pub(crate) enum Refusal {
    /// It is bad, and this many bytes of it are not.
    Behind(usize),
    NoMemory,
}

impl From<NoMemory> for Refusal {
    ghost use Rattle.shell_script.specs.declared.add.Refusal.TheVariants as refusal;

    ghost from_gives = { λ _ given. given ≡ refusal.NoMemory };

    fn from(_: NoMemory) -> Refusal {
        Refusal::NoMemory
    }
}

/// Whether a session has this name.
fn has_name(session: &Session, name: &[u8]) -> bool
    ensures { result ≡ bytes_eq session.now.name name.now }
{
    session.name.as_slice() == name
}

/// Whether a session of this name was begun.
fn is_used(sessions: &[Session], name: &[u8]) -> bool
    ensures { result ≡ is_used (map name_of sessions.now) name.now }
{
    for session in sessions {
        if has_name(session, name) {
            return true;
        }
    }
    false
}

/// Adds a session of a name, which has no jobs.
fn add_session(alloc: Global, sessions: &mut Vec<Session>, name: &[u8]) -> Result<(), NoMemory>
    ensures { OnOk result (Begins sessions.old.items name.now sessions.new.items) }
{
    let session = Session {
        name: Blob::copy_of(alloc, name)?,
        lines: Items::new(alloc),
    };
    sessions.push(session)?;
    Ok(())
}

/// Begins the session of a block line.
fn begin_session(alloc: Global, sessions: &mut Vec<Session>, line: &[u8]) -> Result<(), Refusal>
    requires { IsBlock line.now }
    ensures begun { OnOk result (Begins sessions.old.items (block_name line.now) sessions.new.items) }
    ensures fresh { OnOk result (is_used (map name_of sessions.old.items) (block_name line.now) ≡ false) }
    ensures refused { IfErr result (IsTaken (map name_of sessions.old.items) line.now) }
{
    let name = block_name(line);
    if is_used(sessions.as_slice(), name) {
        return Err(Refusal::Behind(line.len()));
    }
    Ok(add_session(alloc, sessions, name)?)
}

/// Adds a job to the last session.
fn add_job(sessions: &mut Vec<Session>, job: NumberedJob) -> Result<(), NoMemory>
    requires { 0 < length sessions.old.items }
    ensures { OnOk result (Adds sessions.old.items job sessions.new.items) }
{
    let Some(last) = sessions.pop() else {
        unreachable!();
    };
    let mut jobs = last.lines.into_vec();
    jobs.push(job)?;
    let session = Session {
        name: last.name,
        lines: Items::from_vec(jobs),
    };
    sessions.push(session)?;
    Ok(())
}

/// The later of two places.
fn later(first: usize, second: usize) -> usize
    ensures { ((result ≡ first) × (second ≤ first)) ⊎ ((result ≡ second) × (first ≤ second)) }
{
    if first < second { second } else { first }
}

/// Behind how many bytes a line is bad that is none of the grammar of lines behind these bytes, and begins no session.
fn bad_behind(blocks: bool, fault: Fault, line: &[u8]) -> usize
    requires { begins blocks line.now ≡ false }
    ensures { (kinds : List LineKind) (name : List ℕ) (names : List (List ℕ)) → IsFault (IsLine kinds) line.now fault.0
        → IsFault (IsAllowed kinds blocks (name ∷ names)) line.now result }
{
    if !blocks {
        return fault.0;
    }
    match check_block(line) {
        Ok(()) => unreachable!(),
        Err(other) => later(fault.0, other.0),
    }
}

/// Adds what a line that begins no session asks for.
fn add_asked(
    alloc: Global,
    kinds: &[LineKind],
    blocks: bool,
    sessions: &mut Vec<Session>,
    line: &NumberedLine,
) -> Result<(), Refusal>
    requires some { 0 < length kinds.now }
    requires begun { 0 < length sessions.old.items }
    requires other { begins blocks line.now.1 ≡ false }
    ensures added { OnOk result (IsAdded kinds.now blocks sessions.old.items line.now sessions.new.items) }
    ensures good { OnOk result (IsLine kinds.now line.now.1) }
    ensures refused { IfErr result (IsRefused kinds.now blocks (names_begun blocks sessions.old.items) line.now.1) }
{
    let text = line.text();
    match read_line(alloc, kinds, text) {
        Ok(job) => {
            let asked = NumberedJob {
                line: line.number(),
                job,
            };
            Ok(add_job(sessions, asked)?)
        }
        Err(LineError::Bad(fault)) => Err(Refusal::Behind(bad_behind(blocks, fault, text))),
        Err(LineError::NoMemory) => Err(Refusal::NoMemory),
    }
}

/// Adds what a line of a script with blocks asks for.
fn add_in_blocks(
    alloc: Global,
    kinds: &[LineKind],
    sessions: &mut Vec<Session>,
    line: &NumberedLine,
) -> Result<(), Refusal>
    requires { 0 < length kinds.now }
    ensures added { OnOk result (IsAdded kinds.now true sessions.old.items line.now sessions.new.items) }
    ensures good { OnOk result (IsGood kinds.now true (map name_of sessions.old.items) line.now.1) }
    ensures refused { IfErr result (IsRefused kinds.now true (map name_of sessions.old.items) line.now.1) }
{
    let text = line.text();
    let fault = match check_block(text) {
        Ok(()) => return begin_session(alloc, sessions, text),
        Err(fault) => fault,
    };
    if sessions.is_empty() {
        return Err(Refusal::Behind(fault.0));
    }
    add_asked(alloc, kinds, true, sessions, line)
}

/// Adds what a line asks for, a session or a job.
pub(crate) fn add_line(
    alloc: Global,
    kinds: &[LineKind],
    blocks: bool,
    sessions: &mut Vec<Session>,
    line: &NumberedLine,
) -> Result<(), Refusal>
    requires some { 0 < length kinds.now }
    requires begun { blocks ≡ false → 0 < length sessions.old.items }
    ensures added { OnOk result (IsAdded kinds.now blocks sessions.old.items line.now sessions.new.items) }
    ensures good { OnOk result (IsGood kinds.now blocks (names_begun blocks sessions.old.items) line.now.1) }
    ensures refused { IfErr result (IsRefused kinds.now blocks (names_begun blocks sessions.old.items) line.now.1) }
{
    if blocks {
        add_in_blocks(alloc, kinds, sessions, line)
    } else {
        add_asked(alloc, kinds, false, sessions, line)
    }
}
