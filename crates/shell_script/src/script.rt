//! A script as the jobs of its lines.
ghost use Rattle.std.specs.Prelude.{◌≡◌, ◌<◌, ◌≤◌, ◌+◌, ◌^◌, [], ℕ, List, true, false, IfOk, IfErr, count_by, length};
ghost use Rattle.std.specs.List.{AllByRecursion};
ghost use Rattle.shell_script.specs.Lines.{kept_lines};
ghost use Rattle.shell_script.specs.Block.{begins};
ghost use Rattle.shell_script.specs.Session.{AreGood, IsStart, names_begun};
ghost use Rattle.shell_script.specs.declared.script.ScriptError.TheVariants as error;
ghost use Rattle.shell_script.specs.Script.{AreParsed, IsLinesError, IsScriptError, block_count};

use crate::add::{Refusal, add_line};
use crate::block::count_blocks;
use crate::lines::{NumberedLine, lines_of};
use crate::session::{Script, Session};
use hb_wire::{Blob, Items, NoMemory};
use shell_line::LineKind;
use std::alloc::Global;

/// The most sessions of a script.
pub const MAX_SESSIONS: usize = 16;

/// Why a script is not read.
#[derive(Clone, Copy, Debug, PartialEq, Eq)]
pub enum ScriptError {
    /// The first bad line: how many blocks stand before it, its number, and the column of its first byte that no line
    /// has there, the last two counted from 1.
    BadLine {
        session: u32,
        line: u32,
        column: u32,
    },
    TooManySessions,
    NoMemory,
}

impl From<NoMemory> for ScriptError {
    ghost use Rattle.shell_script.specs.declared.script.ScriptError.TheVariants as error;

    ghost from_gives = { λ _ given. given ≡ error.NoMemory };

    fn from(_: NoMemory) -> ScriptError {
        ScriptError::NoMemory
    }
}

/// The sessions before the first line: none in a script with blocks, and else the one without a name.
fn first_sessions(alloc: Global, blocks: bool) -> Result<Vec<Session>, NoMemory>
    ensures { IfOk result (λ sessions. IsStart blocks sessions.items) }
{
    let mut sessions = Vec::new(alloc);
    if !blocks {
        let session = Session {
            name: Blob::from_vec(Vec::new(alloc)),
            lines: Items::new(alloc),
        };
        sessions.push(session)?;
    }
    Ok(sessions)
}

/// How many blocks were begun.
fn blocks_begun(blocks: bool, sessions: &[Session]) -> u32
    requires { length (names_begun blocks sessions.now) < 2 ^ 32 }
    ensures { result ≡ length (names_begun blocks sessions.now) }
{
    if blocks { sessions.len() as u32 } else { 0 }
}

/// The place of a bad line.
fn place_of(session: u32, line: &NumberedLine, at: usize) -> ScriptError
    requires { at + 1 < 2 ^ 32 }
    ensures { result ≡ error.BadLine session line.now.0 (at + 1) }
{
    ScriptError::BadLine {
        session,
        line: line.number(),
        column: at as u32 + 1,
    }
}

/// The sessions of lines.
fn sessions_of(
    alloc: Global,
    kinds: &[LineKind],
    blocks: bool,
    lines: &[NumberedLine],
) -> Result<Items<Session>, ScriptError>
    requires some { 0 < length kinds.now }
    requires few { length lines.now < 2 ^ 32 }
    requires short { AllByRecursion (λ (line : ℕ × List ℕ). length line.1 + 1 < 2 ^ 32) lines.now }
    ensures parsed { IfOk result (λ sessions. AreParsed kinds.now blocks lines.now sessions) }
    ensures good { IfOk result (λ _. AreGood kinds.now blocks [] lines.now) }
    ensures refused { IfErr result (IsLinesError kinds.now blocks lines.now) }
{
    let mut sessions = first_sessions(alloc, blocks)?;
    for line in lines {
        let begun = blocks_begun(blocks, sessions.as_slice());
        match add_line(alloc, kinds, blocks, &mut sessions, line) {
            Ok(()) => {}
            Err(Refusal::Behind(at)) => return Err(place_of(begun, line, at)),
            Err(Refusal::NoMemory) => return Err(ScriptError::NoMemory),
        }
    }
    Ok(Items::from_vec(sessions))
}

/// Whether the lines begin more sessions than a script has.
fn are_too_many(blocks: bool, lines: &[NumberedLine]) -> bool
    ensures yes { result ≡ true → MAX_SESSIONS < count_by (λ (line : ℕ × List ℕ). begins blocks line.1) lines.now }
    ensures no { result ≡ false → count_by (λ (line : ℕ × List ℕ). begins blocks line.1) lines.now ≤ MAX_SESSIONS }
{
    blocks && count_blocks(lines) > MAX_SESSIONS
}

/// The script of an input, whose lines are of these kinds: the sessions of its blocks, or the one of a script without
/// them. It tells that there are too many sessions, and else the first line that the grammar does not allow there.
///
/// A line ends with a line feed, and a carriage return before that goes too; the last line may lack both. Empty lines
/// and lines that begin with `#` ask for nothing. Source: the commands of the HBase shell; blocks are own.
pub fn parse_script(
    alloc: Global,
    kinds: &[LineKind],
    bytes: &[u8],
    blocks: bool,
) -> Result<Script, ScriptError>
    requires some { 0 < length kinds.now }
    requires fits { length bytes.now + 1 < 2 ^ 32 }
    ensures parsed { IfOk result (λ script. AreParsed kinds.now blocks (kept_lines 1 bytes.now) script.sessions) }
    ensures good { IfOk result (λ _. AreGood kinds.now blocks [] (kept_lines 1 bytes.now)) }
    ensures few { IfOk result (λ _. block_count blocks bytes.now ≤ MAX_SESSIONS) }
    ensures refused { IfErr result (IsScriptError kinds.now blocks bytes.now) }
{
    let lines = lines_of(alloc, bytes)?;
    if are_too_many(blocks, lines.as_slice()) {
        return Err(ScriptError::TooManySessions);
    }
    match sessions_of(alloc, kinds, blocks, lines.as_slice()) {
        Ok(sessions) => Ok(Script { sessions }),
        Err(error) => Err(error),
    }
}
