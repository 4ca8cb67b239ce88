//! What a line asks for.
ghost use Rattle.std.specs.Prelude.{◌≡◌, ◌<◌, IfOk, IfErr, length};
ghost use Rattle.shell_line.specs.Line.{IsLine};
ghost use Rattle.shell_lang.specs.Line.{Asks, IsLineError};

use crate::jobs::read_job;
use hb_grammar::Fault;
use hb_wire::NoMemory;
use plain_model::Job;
use shell_line::{LineKind, check_line};
use std::alloc::Global;

/// Why a line asks for nothing.
#[derive(Clone, Copy, Debug, PartialEq, Eq)]
pub enum LineError {
    /// It is none of the grammar, and so long is its longest prefix that one begins with.
    Bad(Fault),
    NoMemory,
}

impl From<NoMemory> for LineError {
    ghost use Rattle.shell_lang.specs.declared.line.LineError.TheVariants as error;

    ghost from_gives = { λ _ given. given ≡ error.NoMemory };

    fn from(_: NoMemory) -> LineError {
        LineError::NoMemory
    }
}

/// What a line asks for, if it is one of these kinds.
pub fn read_line(alloc: Global, kinds: &[LineKind], line: &[u8]) -> Result<Job, LineError>
    requires { 0 < length kinds.now }
    ensures asks { IfOk result (λ job. Asks kinds.now line.now job) }
    ensures good { IfOk result (λ _. IsLine kinds.now line.now) }
    ensures refused { IfErr result (IsLineError kinds.now line.now) }
{
    let kind = match check_line(kinds, line) {
        Ok(kind) => kind,
        Err(fault) => return Err(LineError::Bad(fault)),
    };
    Ok(read_job(alloc, kind, &line[kind.word().len()..])?)
}
