//! Causes that stop a line of a script, and how they are printed.
ghost use Rattle.std.specs.Prelude.{◌≡◌, ◌++◌, OnOk, OnErr};
ghost use Rattle.shell_print.specs.CauseText.{cause_text};

use crate::piece::Piece;
use crate::print::{add_refused, add_refused_with};
use hb_wire::{Blob, NoMemory};

/// Why a line of a script was stopped, as it is printed.
#[derive(Clone, Copy, Debug, PartialEq, Eq)]
pub enum PrintCause {
    /// No memory was left.
    NoMemory,
    /// The store was closed, by the operation of this number.
    Closed(u32),
    /// The journal was full.
    JournalFull,
    /// A counter had come to its end.
    Spent,
    /// The store failed.
    NsFault,
    /// What the store holds was not what was written to it.
    Damaged,
}

/// Adds the line of a cause at the end of `out`. Without memory for it nothing changes.
pub fn print_cause(out: &mut Blob, cause: &PrintCause) -> Result<(), NoMemory>
    ensures ok { OnOk result (out.new ≡ out.old ++ cause_text cause.now) }
    ensures err { OnErr result (out.new ≡ out.old) }
{
    match cause {
        PrintCause::NoMemory => add_refused(b"NoMemory", out),
        PrintCause::Closed(by) => add_refused_with(b"Closed", Piece::Number(*by as u64), out),
        PrintCause::JournalFull => add_refused(b"JournalFull", out),
        PrintCause::Spent => add_refused(b"Spent", out),
        PrintCause::NsFault => add_refused(b"NsFault", out),
        PrintCause::Damaged => add_refused(b"Damaged", out),
    }
}
