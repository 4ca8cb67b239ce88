//! The trailer.
ghost use Rattle.std.specs.Prelude.{◌≡◌, ◌≢◌, ◌≤◌, ◌<◌, ◌+◌, ◌-◌, ◌++◌, ℕ, List, Err, Some, true, false, length, drop, option_map, IfSome};
ghost use Rattle.hb_wire.specs.Fixed.{be_number};
ghost use Rattle.wire_fields.specs.Fields.{Part};
ghost use Rattle.wire_fields.specs.Message.{IsMessage, last_number};
ghost use Rattle.hfile_meta.specs.declared.fault.MetaError.TheVariants.{BadTrailer, Version};
ghost use Rattle.hfile_meta.specs.declared.trailer.Trailer.{Trailer};
ghost use Rattle.hfile_meta.specs.Written.{FitsTrailer, written_trailer};
ghost use Rattle.hfile_meta.specs.Trailer.{magic, IsTrailer, IsMinor, trailer_at, trailer_bytes, major_of, told, trailer_of, judged, or_else};

use crate::MetaError;
use crate::frame::padded_message;
use byteorder::{BigEndian, ByteOrder};
use wire_fields::last_number;

/// How many bytes a trailer takes.
pub const TRAILER_LEN: usize = 212;
/// The first bytes of a trailer. Source: HBase `BlockType.TRAILER`.
pub const MAGIC: &[u8; 8] = b"TRABLK\"$";

/// What the trailer of an HFile tells. Places are counted from the file's first byte. Source: HBase `FixedFileTrailer`.
#[derive(Clone, Copy, Debug, PartialEq, Eq)]
pub struct Trailer {
    /// The place of the file info.
    pub info_at: u64,
    /// The place of the parts that are loaded on open: the root of the index is the first.
    pub load_at: u64,
    /// How many bytes the contents of all index nodes have.
    pub index_bytes: u64,
    /// How many bytes the contents of all data blocks have.
    pub total_bytes: u64,
    /// How many entries the root of the index has.
    pub data_count: u64,
    /// How many entries the index of meta blocks has.
    pub meta_count: u64,
    /// How many cells there are.
    pub entries: u64,
    /// How many levels the index has.
    pub levels: u64,
    /// The place of the first data block.
    pub first: u64,
    /// The place of the last data block.
    pub last: u64,
    /// The method of compression: 2 for none.
    pub compression: u32,
}

/// What the message of a trailer tells.
#[derive(Clone, Copy, Debug, PartialEq, Eq)]
pub struct Told {
    pub info_at: Option<u64>,
    pub load_at: Option<u64>,
    pub index_bytes: Option<u64>,
    pub total_bytes: Option<u64>,
    pub data_count: Option<u64>,
    pub meta_count: Option<u64>,
    pub entries: Option<u64>,
    pub levels: Option<u64>,
    pub first: Option<u64>,
    pub last: Option<u64>,
    pub compression: Option<u64>,
}

/// The last number of a field of bytes that are a message.
fn number_in(message: &[u8], number: u32) -> Option<u64>
    requires { (parts : List (ℕ × Part)) × IsMessage message.now parts }
    ensures { (parts : List (ℕ × Part)) → IsMessage message.now parts → result ≡ last_number number parts }
{
    match last_number(message, number) {
        Ok(last) => last,
        Err(_at) => None,
    }
}

/// What bytes that are a message tell.
fn tells(message: &[u8]) -> Told
    requires { (parts : List (ℕ × Part)) × IsMessage message.now parts }
    ensures { (parts : List (ℕ × Part)) → IsMessage message.now parts → result ≡ told parts }
{
    Told {
        info_at: number_in(message, 1),
        load_at: number_in(message, 2),
        index_bytes: number_in(message, 3),
        total_bytes: number_in(message, 4),
        data_count: number_in(message, 5),
        meta_count: number_in(message, 6),
        entries: number_in(message, 7),
        levels: number_in(message, 8),
        first: number_in(message, 9),
        last: number_in(message, 10),
        compression: number_in(message, 12),
    }
}

/// The number, or another where there is none.
fn or_else(other: u64, number: Option<u64>) -> u64
    ensures { result ≡ or_else other number }
{
    match number {
        None => other,
        Some(number) => number,
    }
}

/// The trailer that a message tells, or none where a field that is needed is missing.
#[tactic(auto, unfolding(crate::specs::Trailer::trailer_of))]
fn trailer_of(told: Told) -> Option<Trailer>
    ensures { result ≡ trailer_of told }
{
    let info_at = told.info_at?;
    let load_at = told.load_at?;
    let data_count = told.data_count?;
    let entries = told.entries?;
    let levels = told.levels?;
    let compression = or_else(2, told.compression);
    if compression > u32::MAX as u64 {
        return None;
    }
    Some(Trailer {
        info_at,
        load_at,
        index_bytes: or_else(0, told.index_bytes),
        total_bytes: or_else(0, told.total_bytes),
        data_count,
        meta_count: or_else(0, told.meta_count),
        entries,
        levels,
        first: or_else(0, told.first),
        last: or_else(0, told.last),
        compression: compression as u32,
    })
}

/// The answer for the message of a trailer at a place.
fn judged(message: &[u8], at: u64) -> Result<Trailer, MetaError>
    ensures message { (parts : List (ℕ × Part)) → IsMessage message.now parts → result ≡ judged at (trailer_of (told parts)) }
    ensures none { ((parts : List (ℕ × Part)) → IsMessage message.now parts → ⊥) → result ≡ Err (BadTrailer at) }
{
    if last_number(message, 1).is_err() {
        return Err(MetaError::BadTrailer(at));
    }
    match trailer_of(tells(message)) {
        None => Err(MetaError::BadTrailer(at)),
        Some(trailer) if trailer.compression == 2 => Ok(trailer),
        Some(trailer) => Err(MetaError::Compressed(trailer.compression)),
    }
}

/// Whether these are the first bytes of a trailer.
fn is_magic(front: &[u8]) -> bool
    ensures yes { result ≡ true → front.now ≡ magic }
    ensures no { result ≡ false → front.now ≢ magic }
{
    front == MAGIC.as_slice()
}

/// Whether the minor number is one that is read.
fn is_minor(minor: u8) -> bool
    ensures yes { result ≡ true → IsMinor minor }
    ensures no { result ≡ false → IsMinor minor → ⊥ }
{
    minor == 2 || minor == 3
}

/// The message of a trailer of version 2, or none where the bytes are not in a trailer's form.
fn message_of(tail: &[u8]) -> Option<&[u8]>
    requires { length tail.now ≡ 212 }
    ensures found { IfSome result (λ message. be_number 3 (drop 209 tail.now) ≡ 2
        → (zeros : ℕ) × (minor : ℕ) × IsMinor minor × (tail.now ≡ trailer_bytes message.now zeros minor)) }
    ensures only { (message : List ℕ) (zeros minor : ℕ) → IsMinor minor → tail.now ≡ trailer_bytes message zeros minor
        → option_map (λ found. found.now) result ≡ Some message }
{
    let (magic, behind) = tail.split_at(8);
    let (body, version) = behind.split_at(200);
    if !is_magic(magic) {
        return None;
    }
    if !is_minor(version[0]) {
        return None;
    }
    padded_message(body)
}

/// The trailer that stands at the end of the bytes of a file. It takes no memory.
///
/// The first fault is that of the length, then of the major version, then of the form and of the fields that are
/// needed, and then of the compression. A field's value of another kind than a number is passed over. Source: HBase
/// Reference Guide, HFile format, trailer; `FixedFileTrailer`.
pub fn read_trailer(bytes: &[u8]) -> Result<Trailer, MetaError>
    ensures short { length bytes.now < 212 → result ≡ Err (BadTrailer (length bytes.now)) }
    ensures version { 212 ≤ length bytes.now → major_of bytes.now ≢ 2 → result ≡ Err (Version (major_of bytes.now)) }
    // What a trailer tells is answered.
    ensures trailer { (message : List ℕ) (parts : List (ℕ × Part)) (zeros minor : ℕ) → 212 ≤ length bytes.now
        → IsTrailer bytes.now message zeros minor → IsMessage message parts
        → result ≡ judged (trailer_at bytes.now) (trailer_of (told parts)) }
    // Where no trailer of the version stands, that is the fault.
    ensures none { 212 ≤ length bytes.now → major_of bytes.now ≡ 2
        → ((message : List ℕ) (parts : List (ℕ × Part)) (zeros minor : ℕ) → IsTrailer bytes.now message zeros minor → IsMessage message parts → ⊥)
        → result ≡ Err (BadTrailer (trailer_at bytes.now)) }
    // What is written is read.
    ensures written { (front : List ℕ) (trailer : Trailer) → FitsTrailer trailer → bytes.now ≡ front ++ written_trailer trailer
        → result ≡ judged (length front) (Some trailer) }
{
    trailer_in(bytes)
}

/// What [`read_trailer`] answers.
fn trailer_in(bytes: &[u8]) -> Result<Trailer, MetaError>
    ensures short { length bytes.now < 212 → result ≡ Err (BadTrailer (length bytes.now)) }
    ensures version { 212 ≤ length bytes.now → major_of bytes.now ≢ 2 → result ≡ Err (Version (major_of bytes.now)) }
    ensures trailer { (message : List ℕ) (parts : List (ℕ × Part)) (zeros minor : ℕ) → 212 ≤ length bytes.now
        → IsTrailer bytes.now message zeros minor → IsMessage message parts
        → result ≡ judged (trailer_at bytes.now) (trailer_of (told parts)) }
    ensures none { 212 ≤ length bytes.now → major_of bytes.now ≡ 2
        → ((message : List ℕ) (parts : List (ℕ × Part)) (zeros minor : ℕ) → IsTrailer bytes.now message zeros minor → IsMessage message parts → ⊥)
        → result ≡ Err (BadTrailer (trailer_at bytes.now)) }
{
    if bytes.len() < TRAILER_LEN {
        return Err(MetaError::BadTrailer(bytes.len() as u64));
    }
    let at = bytes.len() - TRAILER_LEN;
    let (_, version) = bytes.split_at(bytes.len() - 3);
    let major = BigEndian::read_uint(version, 3) as u32;
    if major != 2 {
        return Err(MetaError::Version(major));
    }
    let (_, tail) = bytes.split_at(at);
    match message_of(tail) {
        None => Err(MetaError::BadTrailer(at as u64)),
        Some(message) => judged(message, at as u64),
    }
}
