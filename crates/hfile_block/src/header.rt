//! The header of a block.
ghost use Rattle.std.specs.Prelude.{◌≡◌, ◌<◌, ◌≤◌, ◌++◌, ◌+◌, ◌^◌, ℤ, List, ℕ, Ok, length, drop, take, OnOk, OnErr, IfOk, FitsSigned};
ghost use Rattle.std.specs.Int.{w64, cast_signed};
ghost use Rattle.hb_wire.specs.Fixed.{be_number};
ghost use Rattle.hfile_block.specs.declared.header.Header.{Header};
ghost use Rattle.hfile_block.specs.declared.magic.Magic.{Magic};
ghost use Rattle.hfile_block.specs.Header.{header_at, header_bytes, BeginsWith, judged, sums_len, sizes_agree, fields_of, block_bytes, written_header};

use crate::{HFileError, Magic};
use byteorder::{BigEndian, ByteOrder};
use hb_wire::{Blob, NoMemory, put_u32, put_u64};

/// How many bytes a header takes.
pub const HEADER_LEN: usize = 33;
/// How many bytes a checksum covers, as it is written.
const PER_CHECKSUM: u32 = 16_384;

/// The header of a block. Sizes are in bytes. Source: HBase `HFileBlock`.
#[derive(Clone, Copy, Debug, PartialEq, Eq)]
pub struct Header {
    pub magic: Magic,
    /// The size of content and checksums.
    pub on_disk: u32,
    /// The size of the content.
    pub uncompressed: u32,
    /// The place of the previous block of the same kind, or -1.
    pub previous: i64,
    /// The checksum type: 0 for none, 1 for CRC32, 2 for CRC32C.
    pub checksum: u8,
    /// How many bytes a checksum covers.
    pub per: u32,
    /// The size of header and content.
    pub data_size: u32,
}

/// How long the checksums are.
fn sums_len(covered: u64, per: u64) -> u64
    requires covered { covered < 2 ^ 32 }
    requires per { per < 2 ^ 32 }
    ensures { result ≡ sums_len covered per }
{
    if per == 0 {
        0
    } else {
        4 * ((covered + per - 1) / per)
    }
}

impl Header {
    /// Whether the sizes agree with each other.
    fn sizes_agree(&self) -> bool
        ensures { result ≡ sizes_agree self.now }
    {
        let uncompressed = self.uncompressed as u64;
        let on_disk = self.on_disk as u64;
        let sums = sums_len(self.data_size as u64, self.per as u64);
        self.data_size as u64 == 33 + uncompressed
            && ((self.per != 0 && on_disk == uncompressed + sums)
                || (self.checksum == 0 && on_disk == uncompressed))
    }
}

/// The number of four bytes at a place.
fn number_at(bytes: &[u8], at: usize) -> u32
    requires { at + 4 ≤ length bytes.now }
    ensures { result ≡ be_number 4 (drop at bytes.now) }
{
    let (_, behind) = bytes.split_at(at);
    BigEndian::read_u32(behind)
}

/// The number with a sign of eight bytes at a place.
fn signed_at(bytes: &[u8], at: usize) -> i64
    requires { at + 8 ≤ length bytes.now }
    ensures { result ≡ cast_signed w64 (be_number 8 (drop at bytes.now)) }
{
    let (_, behind) = bytes.split_at(at);
    BigEndian::read_i64(behind)
}

/// The fields of a header of a kind that is known already.
fn fields_of(magic: Magic, bytes: &[u8]) -> Header
    requires { 33 ≤ length bytes.now }
    ensures { result ≡ fields_of magic bytes.now }
{
    Header {
        magic,
        on_disk: number_at(bytes, 8),
        uncompressed: number_at(bytes, 12),
        previous: signed_at(bytes, 16),
        checksum: bytes[24],
        per: number_at(bytes, 25),
        data_size: number_at(bytes, 29),
    }
}

/// The header of the block that the bytes begin with, which stand at a place of the file. It takes no memory.
///
/// The first fault is that of the magic, then of the checksum type, then of the sizes: they agree with each other, and
/// the bytes hold the whole block. Whether a block of this kind may stand there is the caller's to say. Source: HBase
/// Reference Guide, HFile format; `HFileBlock`.
pub fn read_header(bytes: &[u8], at: u64) -> Result<Header, HFileError>
    // Which header it is, or which fault.
    ensures exact { result ≡ header_at at bytes.now }
    // What is read is spelled so.
    ensures found { IfOk result (λ h. BeginsWith bytes.now h) }
    // What is spelled so is read.
    ensures only { (h : Header) → BeginsWith bytes.now h → result ≡ Ok h }
{
    header_of(bytes, at)
}

/// What [`read_header`] answers.
#[tactic(auto, unfolding(crate::specs::Header::header_at))]
fn header_of(bytes: &[u8], at: u64) -> Result<Header, HFileError>
    ensures { result ≡ header_at at bytes.now }
{
    if bytes.len() < 8 {
        return Err(HFileError::Magic(at));
    }
    let Some(magic) = Magic::of(&bytes[..8]) else {
        return Err(HFileError::Magic(at));
    };
    if bytes.len() < HEADER_LEN {
        return Err(HFileError::Size(at));
    }
    let header = fields_of(magic, bytes);
    if header.checksum > 2 {
        return Err(HFileError::Checksum(header.checksum));
    }
    if header.sizes_agree() && HEADER_LEN + header.on_disk as usize <= bytes.len() {
        Ok(header)
    } else {
        Err(HFileError::Size(at))
    }
}

impl Header {
    /// Adds the bytes of the header at the end of others. Without memory for them more or fewer of them are there.
    #[tactic(auto, unfolding(crate::specs::Header::header_bytes))]
    fn put(&self, out: &mut Blob) -> Result<(), NoMemory>
        ensures { OnOk result (out.new ≡ out.old ++ header_bytes self.now) }
    {
        out.add(&self.magic.bytes())?;
        put_u32(out, self.on_disk)?;
        put_u32(out, self.uncompressed)?;
        put_u64(out, self.previous.cast_unsigned())?;
        out.add(&[self.checksum])?;
        put_u32(out, self.per)?;
        put_u32(out, self.data_size)
    }
}

/// Adds a block without checksums at the end. Without memory for it nothing changes.
///
/// Source: HBase Reference Guide, HFile format; `HFileBlock`.
#[tactic(auto, unfolding(crate::specs::Header::block_bytes))]
pub fn write_block(
    out: &mut Blob,
    magic: Magic,
    content: &[u8],
    previous: i64,
) -> Result<(), NoMemory>
    requires { length content.now < 4294967263 }
    ensures ok { OnOk result (out.new ≡ out.old ++ block_bytes magic content.now previous) }
    ensures err { OnErr result (out.new ≡ out.old) }
{
    let len = content.len() as u32;
    let header = Header {
        magic,
        on_disk: len,
        uncompressed: len,
        previous,
        checksum: 0,
        per: PER_CHECKSUM,
        data_size: 33 + len,
    };
    let mut bytes = Blob::copy_of(out.allocator(), &[])?;
    header.put(&mut bytes)?;
    let old = out.len();
    out.add(bytes.as_slice())?;
    match out.add(content) {
        Ok(()) => Ok(()),
        Err(full) => {
            out.truncate(old);
            Err(full)
        }
    }
}
