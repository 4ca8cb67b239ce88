//! The script, read from a source.
ghost use Rattle.std.specs.Prelude.{◌≡◌, ◌<◌, ◌≤◌, ◌+◌, [], length, IfOk, IfErr, OnOk, OnErr, IfSome, Some};
ghost use Rattle.std.specs.Result.{IsErrOf};
ghost use Rattle.hb_causes.specs.Faults.{Rose};
ghost use Rattle.hbase_shell.specs.Script.{HasMoved, HasRead, ReadsTooLong, ReadsWhole, run_kinds};
ghost use Rattle.hbase_shell.specs.Run.{IsScriptCause, ReadsScript};
ghost use Rattle.shell_script.specs.Lines.{kept_lines};
ghost use Rattle.shell_script.specs.Session.{AreGood};
ghost use Rattle.shell_script.specs.Script.{AreParsed};

use crate::run_error::{BadLine, RunError};
use hb_causes::{Failed, Source};
use shell_line::LineKind;
use shell_script::{Script, ScriptError, parse_script};
use std::alloc::Global;

/// The most bytes of an input: 16 MiB.
pub const MAX_INPUT: usize = 16_777_216;

/// How many bytes are asked of a source at once.
const CHUNK: usize = 4096;

/// The kinds of lines that the program runs.
const RUN_KINDS: [LineKind; 1] = [LineKind::ListSnapshots];

/// Reads the script: the input to its end, or to the first byte that is too many.
pub(crate) fn read_script<I: Source>(alloc: Global, input: &mut I) -> Result<Script, RunError>
    ensures ok { IfOk result (ReadsScript (I.left input.old) (I.left input.new)) }
    ensures refused { IfErr result (IsScriptCause (I.left input.old) (I.left input.new) (I.faults input.old) (I.faults input.new)) }
    ensures later { I.faults input.old ≤ I.faults input.new }
{
    let bytes = read_input(alloc, input)?;
    match parse_script(alloc, &RUN_KINDS, bytes.as_slice(), false) {
        Ok(script) => Ok(script),
        Err(
            ScriptError::BadLine {
                session,
                line,
                column,
            },
        ) => Err(RunError::BadScript(BadLine::new(alloc, session, line, column)?)),
        Err(ScriptError::TooManySessions) => unreachable!(),
        Err(ScriptError::NoMemory) => Err(RunError::NoMemory),
    }
}

// Reads the input to its end, or to the first byte that is too many.
fn read_input<I: Source>(alloc: Global, input: &mut I) -> Result<Vec<u8>, RunError>
    ensures whole { IfOk result (λ bytes. ReadsWhole (I.left input.old) (I.left input.new) bytes.items) }
    ensures short { IfOk result (λ bytes. length bytes.items ≤ MAX_INPUT) }
    ensures refused { IfErr result (IsScriptCause (I.left input.old) (I.left input.new) (I.faults input.old) (I.faults input.new)) }
    ensures later { I.faults input.old ≤ I.faults input.new }
{
    let mut bytes = Vec::new(alloc);
    let mut chunk = [0u8; CHUNK];
    while bytes.len() <= MAX_INPUT {
        let room = room_of(bytes.len());
        let Ok(count) = fill(input, &mut chunk[..room]) else {
            return Err(RunError::ReadFault);
        };
        bytes.extend_from_slice(&chunk[..count])?;
        if count < room {
            return Ok(bytes);
        }
    }
    Err(RunError::TooLong)
}

// How many bytes are asked for behind those that were read.
fn room_of(read: usize) -> usize
    requires { read ≤ MAX_INPUT }
    ensures some { 0 < result }
    ensures chunk { result ≤ CHUNK }
    ensures within { read + result ≤ MAX_INPUT + 1 }
{
    let left = MAX_INPUT + 1 - read;
    if left < CHUNK { left } else { CHUNK }
}

// Moves the front of the input into the buffer until this is full or the input ends, and says how many bytes it moved.
fn fill<I: Source>(input: &mut I, buffer: &mut [u8]) -> Result<usize, Failed>
    ensures within { IfOk result (λ count. count ≤ length buffer.old) }
    ensures moved { IfOk result (λ count. HasMoved count (I.left input.old) (I.left input.new) buffer.new) }
    ensures whole { IfOk result (λ count. count < length buffer.old → IfSome (I.left input.old) (λ _. I.left input.new ≡ Some [])) }
    ensures rose { OnErr result (Rose (I.faults input.old) (I.faults input.new)) }
    ensures later { I.faults input.old ≤ I.faults input.new }
{
    let mut count = 0;
    while count < buffer.len() {
        let moved = input.read(&mut buffer[count..])?;
        if moved == 0 {
            break;
        }
        count += moved;
    }
    Ok(count)
}
