//! The lines of a script.
ghost use Rattle.std.specs.Prelude.{◌≡◌, ◌≤◌, ◌<◌, ◌+◌, ◌^◌, ℕ, List, IfOk, length};
ghost use Rattle.std.specs.List.{AllByRecursion};
ghost use Rattle.std.specs.Str.Lines.{strip_carriage_return};
ghost use Rattle.shell_script.specs.Lines.{first_line, is_kept, kept_lines};

use hb_wire::NoMemory;
use shell_value::cut::{before, behind, has_mark};
use std::alloc::Global;
use std::marker::Model;

/// A line that counts, and its number, counted from 1. A contract sees it as the number and the line.
#[derive(Drop)]
pub(crate) struct NumberedLine<'a> {
    number: u32,
    text: &'a [u8],
}

impl<'a> Model for NumberedLine<'a> {
    ghost use Rattle.std.specs.Prelude.{List, ℕ};

    ghost Value = { ℕ × List ℕ };

    ghost view = { λ line. (line.number, line.text.now) };
}

impl<'a> NumberedLine<'a> {
    /// The line's number.
    pub(crate) fn number(&self) -> u32
        ensures { result ≡ self.now.0 }
    {
        self.number
    }

    /// The line.
    pub(crate) fn text(&self) -> &[u8]
        ensures { result.now ≡ self.now.1 }
    {
        self.text
    }
}

/// Whether a line counts: it is neither empty nor a comment.
fn is_kept(line: &[u8]) -> bool
    ensures { result ≡ is_kept line.now }
{
    match line {
        [] => false,
        [first, ..] => *first != b'#',
    }
}

/// A line without the carriage return at its end.
fn without_return(line: &[u8]) -> &[u8]
    ensures { result.now ≡ strip_carriage_return line.now }
{
    match line {
        [front @ .., b'\r'] => front,
        _ => line,
    }
}

/// The first line, without its end.
fn first_line(bytes: &[u8]) -> &[u8]
    ensures { result.now ≡ first_line bytes.now }
{
    if has_mark(bytes, b'\n') {
        without_return(before(bytes, b'\n'))
    } else {
        bytes
    }
}

/// The lines that count. A line ends with a line feed, and a carriage return before that goes too; the last line may
/// lack both. Empty lines and lines that begin with `#` do not count.
pub(crate) fn lines_of<'a>(
    alloc: Global,
    bytes: &'a [u8],
) -> Result<Vec<NumberedLine<'a>>, NoMemory>
    requires { length bytes.now + 1 < 2 ^ 32 }
    ensures lines { IfOk result (λ lines. lines.items ≡ kept_lines 1 bytes.now) }
    ensures few { IfOk result (λ lines. length lines.items ≤ length bytes.now) }
    ensures short { IfOk result (λ lines. AllByRecursion (λ (line : ℕ × List ℕ). length line.1 ≤ length bytes.now) lines.items) }
{
    let mut lines = Vec::new(alloc);
    let mut rest = bytes;
    let mut number: u32 = 0;
    while !rest.is_empty() {
        number += 1;
        let text = first_line(rest);
        if is_kept(text) {
            lines.push(NumberedLine { number, text })?;
        }
        rest = behind(rest, b'\n');
    }
    Ok(lines)
}
