//! The keys of an index.
ghost use Rattle.std.specs.Prelude.{◌≡◌, option_map};
ghost use Rattle.hfile_index.specs.IndexKey.{KeyParts, is_index_code, row_at, family_at, version_at, key_at, parts_of_cell, parts_cmp};

use byteorder::{BigEndian, ByteOrder};
use hb_cell::Cell;
use hb_cell::cell::{MAX_FAMILY, MAX_ROW, NUMBER_LIMIT};
use std::cmp::Ordering;

/// An index key cut into its parts: a cell's key, or a shortened one, whose family may be empty and whose type code may
/// be 255. Source: HBase Reference Guide, HFile format, block index.
#[derive(Clone, Copy, Debug)]
pub struct IndexKey<'a> {
    pub row: &'a [u8],
    pub family: &'a [u8],
    pub qualifier: &'a [u8],
    pub ts: u64,
    pub code: u8,
}

/// Whether this is a type code that an index key may have.
fn is_index_code(code: u8) -> bool
    ensures { result ≡ is_index_code code }
{
    code == 4 || code == 8 || code == 12 || code == 14 || code == 255
}

/// The row at the front of a key, and the bytes behind it.
#[tactic(auto, unfolding(crate::specs::IndexKey::row_at, hb_wire::specs::Fixed::be_number))]
fn row_at(bytes: &[u8]) -> Option<(&[u8], &[u8])>
    ensures { option_map (λ x. (x.0.now, x.1.now)) result ≡ row_at bytes.now }
{
    if bytes.len() < 2 {
        return None;
    }
    let len = BigEndian::read_u16(bytes) as usize;
    let (_, rest) = bytes.split_at(2);
    if len == 0 || len > MAX_ROW || rest.len() < len {
        return None;
    }
    Some(rest.split_at(len))
}

/// The family behind the row, and the bytes behind it.
#[tactic(auto, unfolding(crate::specs::IndexKey::family_at))]
fn family_at(bytes: &[u8]) -> Option<(&[u8], &[u8])>
    ensures { option_map (λ x. (x.0.now, x.1.now)) result ≡ family_at bytes.now }
{
    let [len, rest @ ..] = bytes else {
        return None;
    };
    let len = *len as usize;
    if len > MAX_FAMILY || rest.len() < len {
        return None;
    }
    Some(rest.split_at(len))
}

/// The qualifier, the timestamp and the type code behind the family.
#[tactic(auto, unfolding(crate::specs::IndexKey::version_at, hb_wire::specs::Fixed::be_number))]
fn version_at(bytes: &[u8]) -> Option<(&[u8], u64, u8)>
    ensures { option_map (λ x. (x.0.now, x.1, x.2)) result ≡ version_at bytes.now }
{
    if bytes.len() < 9 {
        return None;
    }
    let len = bytes.len() - 9;
    if len > MAX_ROW {
        return None;
    }
    let code = bytes[len + 8];
    let (qualifier, rest) = bytes.split_at(len);
    let ts = BigEndian::read_u64(rest);
    if ts >= NUMBER_LIMIT || !is_index_code(code) {
        return None;
    }
    Some((qualifier, ts, code))
}

impl<'a> IndexKey<'a> {
    /// The parts of an index key, where the bytes are one.
    #[tactic(auto, unfolding(crate::specs::IndexKey::key_at))]
    pub fn of(bytes: &'a [u8]) -> Option<IndexKey<'a>>
        ensures { option_map (λ k. record { row = k.row.now; family = k.family.now; qualifier = k.qualifier.now; ts = k.ts; code = k.code })
            result ≡ key_at bytes.now }
    {
        let (row, rest) = row_at(bytes)?;
        let (family, rest) = family_at(rest)?;
        let (qualifier, ts, code) = version_at(rest)?;
        Some(IndexKey {
            row,
            family,
            qualifier,
            ts,
            code,
        })
    }
}
