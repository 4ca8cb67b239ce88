//! Variable-length numbers, as Hadoop spells them.
ghost use Rattle.std.specs.Prelude.{◌≡◌, ◌≤◌, ◌<◌, ◌++◌, ◌+◌, ◌^◌, ℕ, ℤ, List, length, drop, Ok, Err, IfOk, OnOk, OnErr, FitsSigned};
ghost use Rattle.hb_wire.specs.declared.fault.WireError.TheVariants.{Short, Overlong};
ghost use Rattle.std.specs.Int.{w64};
ghost use Rattle.hb_wire.specs.Vlong.{byte_count, counted, stored_at, vlong, vlong_at, BeginsWithNone};

use crate::{Blob, NoMemory, WireError};
use byteorder::{BigEndian, ByteOrder};

/// How many bytes hold the number, at least one.
fn byte_count(number: u64) -> usize
    ensures { result ≡ byte_count number }
{
    match number {
        0..=0xff => 1,
        0x100..=0xffff => 2,
        0x1_0000..=0xff_ffff => 3,
        0x100_0000..=0xffff_ffff => 4,
        0x1_0000_0000..=0xff_ffff_ffff => 5,
        0x100_0000_0000..=0xffff_ffff_ffff => 6,
        0x1_0000_0000_0000..=0xff_ffff_ffff_ffff => 7,
        _ => 8,
    }
}

/// The number in the first `len` bytes, which is at least `least` and needs each of them.
#[tactic(auto, unfolding(crate::specs::Vlong::stored_at))]
fn stored_at(bytes: &[u8], len: usize, least: u64) -> Result<u64, WireError>
    requires low { 1 ≤ len }
    requires high { len ≤ 8 }
    ensures exact { result ≡ stored_at len least bytes.now }
    ensures fits { IfOk result (λ number. number < 2 ^ 63) }
{
    if bytes.len() < len {
        return Err(WireError::Short(len - bytes.len()));
    }
    let number = BigEndian::read_uint(bytes, len);
    if number < least || byte_count(number) != len || number > i64::MAX as u64 {
        return Err(WireError::Overlong);
    }
    Ok(number)
}

/// What [`get_vlong`] answers, for the bytes from the number on.
#[tactic(auto, unfolding(crate::specs::Vlong::vlong_at))]
fn vlong_at(bytes: &[u8]) -> Result<(i64, usize), WireError>
    ensures { result ≡ vlong_at bytes.now }
{
    let [first, rest @ ..] = bytes else {
        return Err(WireError::Short(1));
    };
    match *first {
        0..=127 => Ok((*first as i64, 1)),
        128..=135 => {
            let len = 136 - *first as usize;
            let complement = stored_at(rest, len, 112)?;
            Ok((-1 - complement as i64, 1 + len))
        }
        136..=143 => {
            let len = 144 - *first as usize;
            let number = stored_at(rest, len, 128)?;
            Ok((number as i64, 1 + len))
        }
        144..=255 => Ok((*first as i64 - 256, 1)),
    }
}

/// The number that stands at a place, and how many bytes it takes. It takes no memory.
///
/// `Short` says how many bytes are missing at least. A number that its bytes spell longer than needed, and one
/// that 64 bits with a sign do not hold, is `Overlong`. Source: Hadoop, `WritableUtils.readVLong`.
pub fn get_vlong(bytes: &[u8], at: usize) -> Result<(i64, usize), WireError>
    requires { at ≤ length bytes.now }
    // Which number it is, or which fault.
    ensures exact { result ≡ vlong_at (drop at bytes.now) }
    ensures within { IfOk result (λ x. at + x.1 ≤ length bytes.now) }
    // What is read is spelled so.
    ensures found { IfOk result (λ x. FitsSigned w64 x.0 × (drop at bytes.now ≡ vlong x.0 ++ drop (at + x.1) bytes.now)) }
    // What is spelled so is read.
    ensures only { (value : ℤ) (rest : List ℕ) → FitsSigned w64 value → drop at bytes.now ≡ vlong value ++ rest
        → result ≡ Ok (value, length (vlong value)) }
    // With fewer bytes behind these than are missing there is no number.
    ensures short { (missing : ℕ) (more : List ℕ) → result ≡ Err (Short missing) → length more < missing
        → BeginsWithNone (drop at bytes.now ++ more) }
    // What is overlong begins no number, whatever follows.
    ensures overlong { (more : List ℕ) → result ≡ Err Overlong → BeginsWithNone (drop at bytes.now ++ more) }
{
    vlong_at(&bytes[at..])
}

/// Adds a first byte that tells how many bytes follow, and the number in these bytes.
fn put_counted(out: &mut Blob, base: u8, number: u64) -> Result<(), NoMemory>
    requires { 8 ≤ base }
    ensures ok { OnOk result (out.new ≡ out.old ++ counted base number) }
    ensures err { OnErr result (out.new ≡ out.old) }
{
    let len = byte_count(number);
    let mut bytes = [0u8; 9];
    bytes[0] = base - len as u8;
    BigEndian::write_uint(&mut bytes[1..], number, len);
    out.add(&bytes[..1 + len])
}

/// Adds the spelling of a number at the end. Without memory for it nothing changes.
///
/// Source: Hadoop, `WritableUtils.writeVLong`.
#[tactic(auto, unfolding(crate::specs::Vlong::vlong))]
pub fn put_vlong(out: &mut Blob, value: i64) -> Result<(), NoMemory>
    ensures ok { OnOk result (out.new ≡ out.old ++ vlong value) }
    ensures err { OnErr result (out.new ≡ out.old) }
{
    if value < 0 {
        let complement = (-1 - value) as u64;
        if complement < 112 {
            out.add(&[255 - complement as u8])
        } else {
            put_counted(out, 136, complement)
        }
    } else {
        let number = value as u64;
        if number < 128 {
            out.add(&[number as u8])
        } else {
            put_counted(out, 144, number)
        }
    }
}
