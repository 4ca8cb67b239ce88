//! The parts of a printed line.
ghost use Rattle.std.specs.Prelude.{◌≡◌, ◌++◌, ◌<◌, length, OnOk, OnErr};
ghost use Rattle.std.specs.List.{flat_map};
ghost use Rattle.shell_print.specs.Shown.{byte_text, lower_digit, shown};
ghost use Rattle.shell_print.specs.Piece.{Begins, line_of, piece_text};

use hb_wire::{Blob, NoMemory};

/// A part of a printed line.
#[derive(Clone, Copy)]
pub(crate) enum Piece<'a> {
    /// Bytes that are printed as they are.
    Plain(&'a [u8]),
    /// Bytes of a row, a qualifier or a value.
    Shown(&'a [u8]),
    /// A number, in decimal digits.
    Number(u64),
}

/// The lower-case hexadecimal digit of a number.
fn lower_digit(number: u8) -> u8
    requires { number < 16 }
    ensures { result ≡ lower_digit number }
{
    if number < 10 {
        b'0' + number
    } else {
        87 + number
    }
}

/// Adds a byte of a row, a qualifier or a value.
fn add_byte(byte: u8, out: &mut Blob) -> Result<(), NoMemory>
    ensures ok { OnOk result (out.new ≡ out.old ++ byte_text byte) }
    ensures err { OnErr result (out.new ≡ out.old) }
{
    if b'!' <= byte && byte <= b'~' && byte != b'\\' {
        out.add(&[byte])
    } else {
        out.add(&[b'\\', b'x', lower_digit(byte / 16), lower_digit(byte % 16)])
    }
}

/// Adds bytes of a row, a qualifier or a value.
fn add_shown(bytes: &[u8], out: &mut Blob) -> Result<(), NoMemory>
    ensures ok { OnOk result (out.new ≡ out.old ++ shown bytes.now) }
    ensures err { OnErr result (Begins out.old out.new) }
{
    for byte in bytes {
        add_byte(*byte, out)?;
    }
    Ok(())
}

/// Adds a part.
fn add_piece(piece: Piece, out: &mut Blob) -> Result<(), NoMemory>
    ensures ok { OnOk result (out.new ≡ out.old ++ piece_text piece.entry) }
    ensures err { OnErr result (Begins out.old out.new) }
{
    match piece {
        Piece::Plain(bytes) => out.add(bytes),
        Piece::Shown(bytes) => add_shown(bytes, out),
        Piece::Number(number) => {
            let digits = number.to_string(out.allocator())?;
            out.add(digits.as_bytes())
        }
    }
}

/// Adds parts, one behind another.
fn add_pieces(pieces: &[Piece], out: &mut Blob) -> Result<(), NoMemory>
    ensures ok { OnOk result (out.new ≡ out.old ++ flat_map piece_text pieces.now) }
    ensures err { OnErr result (Begins out.old out.new) }
{
    for piece in pieces {
        add_piece(*piece, out)?;
    }
    Ok(())
}

/// Adds parts and the line feed behind them.
fn write_line(pieces: &[Piece], out: &mut Blob) -> Result<(), NoMemory>
    ensures ok { OnOk result (out.new ≡ out.old ++ line_of pieces.now) }
    ensures err { OnErr result (Begins out.old out.new) }
{
    add_pieces(pieces, out)?;
    out.add(b"\n")
}

/// Adds the line of some parts. Without memory for it nothing changes.
pub(crate) fn add_line(pieces: &[Piece], out: &mut Blob) -> Result<(), NoMemory>
    ensures ok { OnOk result (out.new ≡ out.old ++ line_of pieces.now) }
    ensures err { OnErr result (out.new ≡ out.old) }
{
    let before = out.len();
    match write_line(pieces, out) {
        Ok(()) => Ok(()),
        Err(want) => {
            out.truncate(before);
            Err(want)
        }
    }
}
