//! An entry of an index.
ghost use Rattle.std.specs.Prelude.{◌≡◌, ◌≤◌, length, drop, option_map};
ghost use Rattle.hb_wire.specs.Fixed.{be_number};
ghost use Rattle.hfile_index.specs.Entries.{entry_of};

use crate::IndexKey;
use byteorder::{BigEndian, ByteOrder};
use hb_wire::Blob;

/// An entry of an index: the place of a block, its size in bytes with its header, and a key that is not above the
/// block's first one. Source: HBase `HFileBlockIndex`.
#[derive(Debug, PartialEq, Eq, Drop)]
pub struct IndexEntry {
    pub offset: u64,
    pub size: u32,
    pub key: Blob,
}

/// An entry whose key lies in the bytes that it was read from.
#[derive(Clone, Copy)]
pub struct ReadEntry<'a> {
    pub offset: u64,
    pub size: u32,
    pub key: &'a [u8],
}

/// The entry of these parts, where the key is one.
pub fn entry_of(offset: u64, size: u32, key: &[u8]) -> Option<ReadEntry<'_>>
    ensures { option_map (λ e. record { offset = e.offset; size = e.size; key = e.key.now }) result ≡ entry_of offset size key.now }
{
    match IndexKey::of(key) {
        Some(_) => Some(ReadEntry { offset, size, key }),
        None => None,
    }
}

/// The place at the front of an entry.
#[tactic(auto, unfolding(hb_wire::specs::Fixed::be_number))]
pub fn offset_at(bytes: &[u8]) -> u64
    requires { 12 ≤ length bytes.now }
    ensures { result ≡ be_number 8 bytes.now }
{
    BigEndian::read_u64(bytes)
}

/// The number of four bytes at a place.
#[tactic(auto, unfolding(hb_wire::specs::Fixed::be_number))]
pub fn number_at(bytes: &[u8]) -> u32
    requires { 4 ≤ length bytes.now }
    ensures { result ≡ be_number 4 bytes.now }
{
    BigEndian::read_u32(bytes)
}
