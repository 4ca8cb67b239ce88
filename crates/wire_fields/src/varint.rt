//! Numbers of protobuf.
ghost use Rattle.std.specs.Prelude.{◌≡◌, ◌≤◌, ◌<◌, ◌++◌, ◌+◌, ◌^◌, ℕ, List, length, drop, Ok, Err, IfOk, OnOk, OnErr};
ghost use Rattle.hb_wire.specs.declared.fault.WireError.TheVariants.{Short, Overlong};
ghost use Rattle.wire_fields.specs.Varint.{varint, limit, sevens_at, varint_at, BeginsWithNone};

use hb_wire::{Blob, NoMemory, WireError};

/// The most bytes that stand behind the first byte of a number.
const MOST_BEHIND: usize = 9;

/// The number at the front of the bytes, of at most so many bytes more than one, and how many bytes it takes.
fn sevens_at(bytes: &[u8], more: usize) -> Result<(u64, usize), WireError>
    requires { more ≤ 9 }
    ensures exact { result ≡ sevens_at more bytes.now }
    ensures small { IfOk result (λ x. x.0 < limit more) }
    ensures short { IfOk result (λ x. x.1 ≤ 1 + more) }
{
    let [first, rest @ ..] = bytes else {
        return Err(WireError::Short(1));
    };
    if more == 0 {
        return if *first < 2 {
            Ok((*first as u64, 1))
        } else {
            Err(WireError::Overlong)
        };
    }
    if *first < 128 {
        return Ok((*first as u64, 1));
    }
    let (high, used) = sevens_at(rest, more - 1)?;
    if high == 0 {
        return Err(WireError::Overlong);
    }
    Ok(((*first - 128) as u64 + 128 * high, 1 + used))
}

/// The number that stands at a place, and how many bytes it takes. It takes no memory.
///
/// `Short` says how many bytes are missing at least. A number that is spelled longer than needed, and one that 64
/// bits do not hold, is `Overlong`. Source: Protocol Buffers, Encoding, Base 128 Varints.
pub fn get_varint(bytes: &[u8], at: usize) -> Result<(u64, usize), WireError>
    requires { at ≤ length bytes.now }
    // Which number it is, or which fault.
    ensures exact { result ≡ varint_at (drop at bytes.now) }
    ensures within { IfOk result (λ x. at + x.1 ≤ length bytes.now) }
    // What is read is spelled so.
    ensures found { IfOk result (λ x. (x.0 < 2 ^ 64) × (drop at bytes.now ≡ varint x.0 ++ drop (at + x.1) bytes.now)) }
    // What is spelled so is read.
    ensures only { (value : ℕ) (rest : List ℕ) → value < 2 ^ 64 → drop at bytes.now ≡ varint value ++ rest
        → result ≡ Ok (value, length (varint value)) }
    // With fewer bytes behind these than are missing there is no number.
    ensures short { (missing : ℕ) (more : List ℕ) → result ≡ Err (Short missing) → length more < missing
        → BeginsWithNone (drop at bytes.now ++ more) }
    // What is overlong begins no number, whatever follows.
    ensures overlong { (more : List ℕ) → result ≡ Err Overlong → BeginsWithNone (drop at bytes.now ++ more) }
{
    sevens_at(&bytes[at..], MOST_BEHIND)
}

/// Adds the spelling of a number at the end. Without memory for it nothing changes.
///
/// Source: Protocol Buffers, Encoding, Base 128 Varints.
pub fn put_varint(out: &mut Blob, value: u64) -> Result<(), NoMemory>
    ensures ok { OnOk result (out.new ≡ out.old ++ varint value) }
    ensures err { OnErr result (out.new ≡ out.old) }
{
    let mut bytes = [0u8; 10];
    let mut len = 0;
    let mut rest = value;
    while rest >= 128 {
        bytes[len] = 128 + (rest % 128) as u8;
        rest /= 128;
        len += 1;
    }
    bytes[len] = rest as u8;
    out.add(&bytes[..1 + len])
}
