//! The bytes of a cell in a file.
ghost use Rattle.std.specs.Prelude.{◌≡◌, ◌≤◌, ◌<◌, ◌^◌, ◌+◌, ◌++◌, ℕ, Bool, List, length, drop, take, pos, IfOk, IfErr, Ok, OnOk, OnErr};
ghost use Rattle.hb_cell.specs.declared.cell.Cell.{Cell};
ghost use Rattle.hb_cell.specs.Limits.{IsCell};
ghost use Rattle.hb_cell.specs.Refused.{IsRefusedFor};
ghost use Rattle.hb_cell.specs.Stored.{row_bytes, family_bytes, version_bytes, key, seq_bytes, stored, IsNumbered};
ghost use Rattle.hb_wire.specs.Fixed.{be_bytes};
ghost use Rattle.hb_cell.specs.Reading.{Gives, seq_at, parts_at, row_at, family_at, version_at, key_at, cell_at};

use crate::cell::{MAX_FAMILY, MAX_ROW, MAX_VALUE, NUMBER_LIMIT};
use crate::{Cell, CellError, Kind};
use byteorder::{BigEndian, ByteOrder};
use hb_wire::{Blob, NoMemory, WireError, get_vlong, put_u16, put_u32, put_u64, put_vlong};
use std::alloc::Global;

/// A stored cell cut into its parts, none of them judged yet.
#[derive(Clone, Copy)]
struct Parts<'a> {
    key: &'a [u8],
    value: &'a [u8],
    /// None where the number is negative or spelled too long.
    seq: Option<u64>,
    used: usize,
}

/// A key cut into its parts.
#[derive(Clone, Copy)]
struct Key<'a> {
    row: &'a [u8],
    family: &'a [u8],
    version: Version<'a>,
}

/// What stands behind the family in a key.
#[derive(Clone, Copy)]
struct Version<'a> {
    qualifier: &'a [u8],
    ts: u64,
    kind: Kind,
}

/// The sequence number at a place, and where it ends.
#[tactic(auto, unfolding(crate::specs::Reading::seq_at))]
fn seq_at(bytes: &[u8], at: usize, with_seq: bool) -> Result<(Option<u64>, usize), CellError>
    requires { at ≤ length bytes.now }
    ensures { Gives (λ x. x) result (seq_at with_seq at (drop at bytes.now)) }
{
    if !with_seq {
        return Ok((Some(0), at));
    }
    match get_vlong(bytes, at) {
        Ok((seq, used)) if seq < 0 => Ok((None, at + used)),
        Ok((seq, used)) => Ok((Some(seq as u64), at + used)),
        Err(WireError::Short(need)) => Err(CellError::Short(need)),
        Err(WireError::Overlong | WireError::BadWire(_) | WireError::NoMemory) => Ok((None, at)),
    }
}

/// The parts of a stored cell at the front of the bytes.
fn parts_at(bytes: &[u8], with_seq: bool) -> Result<Parts<'_>, CellError>
    ensures { Gives (λ p. record { key = p.key.now; value = p.value.now; seq = p.seq; used = p.used })
        result (parts_at with_seq bytes.now) }
{
    if bytes.len() < 8 {
        return Err(CellError::Short(8 - bytes.len()));
    }
    let key_len = BigEndian::read_u32(bytes) as usize;
    let (_, behind) = bytes.split_at(4);
    let value_len = BigEndian::read_u32(behind) as usize;
    let whole = 8 + key_len + value_len;
    if bytes.len() < whole {
        return Err(CellError::Short(whole - bytes.len()));
    }
    let (_, rest) = bytes.split_at(8);
    let (key, rest) = rest.split_at(key_len);
    let (value, _) = rest.split_at(value_len);
    let (seq, used) = seq_at(bytes, whole, with_seq)?;
    Ok(Parts {
        key,
        value,
        seq,
        used,
    })
}

/// The row at the front of a key, and the bytes behind it.
#[tactic(auto, unfolding(crate::specs::Reading::row_at, hb_wire::specs::Fixed::be_number))]
fn row_at(bytes: &[u8]) -> Result<(&[u8], &[u8]), CellError>
    ensures { Gives (λ x. (x.0.now, x.1.now)) result (row_at bytes.now) }
{
    if bytes.len() < 2 {
        return Err(CellError::FamilyLength);
    }
    let len = BigEndian::read_u16(bytes) as usize;
    if len == 0 || len > MAX_ROW {
        return Err(CellError::RowLength);
    }
    let (_, rest) = bytes.split_at(2);
    if rest.len() < len {
        return Err(CellError::FamilyLength);
    }
    Ok(rest.split_at(len))
}

/// The family behind the row, and the bytes behind it.
#[tactic(auto, unfolding(crate::specs::Reading::family_at))]
fn family_at(bytes: &[u8]) -> Result<(&[u8], &[u8]), CellError>
    ensures { Gives (λ x. (x.0.now, x.1.now)) result (family_at bytes.now) }
{
    let [len, rest @ ..] = bytes else {
        return Err(CellError::FamilyLength);
    };
    let len = *len as usize;
    if len == 0 || len > MAX_FAMILY || rest.len() < len {
        return Err(CellError::FamilyLength);
    }
    Ok(rest.split_at(len))
}

/// The qualifier, the timestamp and the kind behind the family.
#[tactic(auto, unfolding(crate::specs::Reading::version_at, hb_wire::specs::Fixed::be_number))]
fn version_at(bytes: &[u8]) -> Result<Version<'_>, CellError>
    ensures { Gives (λ v. record { qualifier = v.qualifier.now; ts = v.ts; kind = v.kind })
        result (version_at bytes.now) }
{
    if bytes.len() < 9 {
        return Err(CellError::FamilyLength);
    }
    let len = bytes.len() - 9;
    if len > MAX_ROW {
        return Err(CellError::FamilyLength);
    }
    let code = bytes[len + 8];
    let Some(kind) = Kind::from_code(code) else {
        return Err(CellError::Kind(code));
    };
    let (qualifier, rest) = bytes.split_at(len);
    let ts = BigEndian::read_u64(rest);
    if ts >= NUMBER_LIMIT {
        return Err(CellError::Timestamp);
    }
    Ok(Version {
        qualifier,
        ts,
        kind,
    })
}

/// The parts of a key.
#[tactic(auto, unfolding(crate::specs::Reading::key_at))]
fn key_at(bytes: &[u8]) -> Result<Key<'_>, CellError>
    ensures { Gives (λ k. record {
      row = k.row.now;
      family = k.family.now;
      version = record { qualifier = k.version.qualifier.now; ts = k.version.ts; kind = k.version.kind };
    }) result (key_at bytes.now) }
{
    let (row, rest) = row_at(bytes)?;
    let (family, rest) = family_at(rest)?;
    let version = version_at(rest)?;
    Ok(Key {
        row,
        family,
        version,
    })
}

/// What [`decode_cell`] answers, for the bytes from the cell on.
#[tactic(auto, unfolding(crate::specs::Reading::cell_at))]
fn cell_at(alloc: Global, bytes: &[u8], with_seq: bool) -> Result<(Cell, usize), CellError>
    ensures { Gives (λ x. x) result (cell_at with_seq bytes.now) }
{
    let parts = parts_at(bytes, with_seq)?;
    let key = key_at(parts.key)?;
    if parts.value.len() > MAX_VALUE {
        return Err(CellError::ValueLength);
    }
    let Some(seq) = parts.seq else {
        return Err(CellError::Sequence);
    };
    let cell = Cell {
        row: Blob::copy_of(alloc, key.row)?,
        family: Blob::copy_of(alloc, key.family)?,
        qualifier: Blob::copy_of(alloc, key.version.qualifier)?,
        ts: key.version.ts,
        kind: key.version.kind,
        seq,
        value: Blob::copy_of(alloc, parts.value)?,
    };
    Ok((cell, parts.used))
}

/// The cell that is stored at a place, and how many bytes it takes. `with_seq` tells whether a sequence number
/// stands behind the value; without one it is 0. Each part is copied once.
///
/// The fault is the first of those that [`CellError`] lists. Source: HBase Reference Guide, HFile format, KeyValue.
pub fn decode_cell(
    alloc: Global,
    bytes: &[u8],
    at: usize,
    with_seq: bool,
) -> Result<(Cell, usize), CellError>
    requires { at ≤ length bytes.now }
    // Which cell it is, or which fault.
    ensures exact { Gives (λ x. x) result (cell_at with_seq (drop at bytes.now)) }
    ensures within { IfOk result (λ x. at + x.1 ≤ length bytes.now) }
    // What is read is a cell that is spelled so.
    ensures found { IfOk result (λ x. IsCell x.0 × IsNumbered with_seq x.0
        × (drop at bytes.now ≡ stored with_seq x.0 ++ drop (at + x.1) bytes.now)) }
    // What is spelled so is read.
    ensures only { (cell : Cell) (rest : List ℕ) → IsCell cell → IsNumbered with_seq cell
        → drop at bytes.now ≡ stored with_seq cell ++ rest
        → Gives (λ x. x) result (Ok (cell, length (stored with_seq cell))) }
    // With fewer bytes than are missing there is no cell, and what is wrong stays wrong, whatever follows.
    ensures refused { IfErr result (IsRefusedFor with_seq (drop at bytes.now)) }
{
    let (_, rest) = bytes.split_at(at);
    cell_at(alloc, rest, with_seq)
}

/// Adds a row with its length at the end.
fn add_row(out: &mut Blob, row: &Blob) -> Result<(), NoMemory>
    requires { length row.now ≤ MAX_ROW }
    ensures ok { OnOk result (out.new ≡ out.old ++ row_bytes row.now) }
    ensures front { take (length out.old) out.new ≡ out.old }
{
    put_u16(out, row.len() as u16)?;
    out.add(row.as_slice())
}

/// Adds a family with its length at the end.
fn add_family(out: &mut Blob, family: &Blob) -> Result<(), NoMemory>
    requires { length family.now ≤ MAX_FAMILY }
    ensures ok { OnOk result (out.new ≡ out.old ++ family_bytes family.now) }
    ensures front { take (length out.old) out.new ≡ out.old }
{
    out.add(&[family.len() as u8])?;
    out.add(family.as_slice())
}

/// Adds what stands behind the family in a key at the end.
fn add_version(out: &mut Blob, qualifier: &Blob, ts: u64, kind: Kind) -> Result<(), NoMemory>
    ensures ok { OnOk result (out.new ≡ out.old ++ version_bytes qualifier.now ts kind) }
    ensures front { take (length out.old) out.new ≡ out.old }
{
    out.add(qualifier.as_slice())?;
    put_u64(out, ts)?;
    out.add(&[kind.code()])
}

/// Adds a cell's key at the end.
fn add_key(out: &mut Blob, cell: &Cell) -> Result<(), NoMemory>
    requires { IsCell cell.now }
    ensures ok { OnOk result (out.new ≡ out.old ++ key cell.now) }
    ensures front { take (length out.old) out.new ≡ out.old }
{
    add_row(out, &cell.row)?;
    add_family(out, &cell.family)?;
    add_version(out, &cell.qualifier, cell.ts, cell.kind)
}

/// Adds a cell's sequence number at the end, or nothing.
fn add_seq(out: &mut Blob, seq: u64, with_seq: bool) -> Result<(), NoMemory>
    requires { seq < NUMBER_LIMIT }
    ensures ok { OnOk result (out.new ≡ out.old ++ seq_bytes with_seq seq) }
    ensures front { take (length out.old) out.new ≡ out.old }
{
    if with_seq {
        put_vlong(out, seq as i64)
    } else {
        Ok(())
    }
}

/// How many bytes a cell's key has.
fn key_len(cell: &Cell) -> usize
    requires { IsCell cell.now }
    ensures exact { result ≡ length (key cell.now) }
    ensures small { result < 2 ^ 32 }
{
    12 + cell.row.len() + cell.family.len() + cell.qualifier.len()
}

/// Adds the lengths of a cell's key and of its value at the end.
fn add_lengths(out: &mut Blob, cell: &Cell) -> Result<(), NoMemory>
    requires { IsCell cell.now }
    ensures ok { OnOk result (out.new
        ≡ out.old ++ (be_bytes 4 (length (key cell.now)) ++ be_bytes 4 (length cell.now.value))) }
    ensures front { take (length out.old) out.new ≡ out.old }
{
    put_u32(out, key_len(cell) as u32)?;
    put_u32(out, cell.value.len() as u32)
}

/// Makes room for a cell's bytes, with as many as a number takes at most.
fn reserve_cell(out: &mut Blob, cell: &Cell) -> Result<(), NoMemory>
    requires { IsCell cell.now }
    ensures { out.new ≡ out.old }
{
    out.reserve(8 + key_len(cell) + cell.value.len() + 9)
}

/// Adds a cell's bytes at the end.
fn add_cell(out: &mut Blob, cell: &Cell, with_seq: bool) -> Result<(), NoMemory>
    requires { IsCell cell.now }
    ensures ok { OnOk result (out.new ≡ out.old ++ stored with_seq cell.now) }
    ensures front { take (length out.old) out.new ≡ out.old }
{
    reserve_cell(out, cell)?;
    add_lengths(out, cell)?;
    add_key(out, cell)?;
    out.add(cell.value.as_slice())?;
    add_seq(out, cell.seq, with_seq)
}

/// Adds the bytes of a cell that is within its limits at the end, with its sequence number or without. Without
/// memory for them nothing changes.
///
/// Source: HBase Reference Guide, HFile format, KeyValue.
pub fn encode_cell(out: &mut Blob, cell: &Cell, with_seq: bool) -> Result<(), NoMemory>
    requires { IsCell cell.now }
    ensures ok { OnOk result (out.new ≡ out.old ++ stored with_seq cell.now) }
    ensures err { OnErr result (out.new ≡ out.old) }
{
    let len = out.len();
    let added = add_cell(out, cell, with_seq);
    if added.is_err() {
        out.truncate(len);
    }
    added
}
