//! A block whose bytes lie in those of the file.
ghost use Rattle.std.specs.Prelude.{◌≡◌, ◌≤◌, ◌+◌, length, take, IfOk};
ghost use Rattle.hfile_form.specs.Blocks.{allowed, kind_at, block_at};
ghost use Rattle.hfile_read.specs.Answers.{Gives};
ghost use Rattle.hfile_read.specs.Views.{block_view};

use hfile_block::{HEADER_LEN, HFileError, Header, Magic, read_header};
use hfile_form::Section;

/// A block: its header, and what stands behind the header. Source: HBase `HFileBlock`.
#[derive(Clone, Copy)]
pub struct ReadBlock<'a> {
    pub header: Header,
    pub body: &'a [u8],
}

impl<'a> ReadBlock<'a> {
    /// How many bytes the block takes with its header.
    pub fn size(&self) -> u64
        ensures { result ≡ 33 + self.now.header.on_disk }
    {
        HEADER_LEN as u64 + self.header.on_disk as u64
    }

    /// What the block holds: its body without the checksums.
    pub fn content(&self) -> &'a [u8]
        ensures { result.now ≡ take self.now.header.uncompressed self.now.body.now }
    {
        let len = (self.header.uncompressed as usize).min(self.body.len());
        let (content, _) = self.body.split_at(len);
        content
    }
}

/// The kind that the bytes begin with.
fn kind_at(bytes: &[u8]) -> Option<Magic>
    ensures { result ≡ kind_at bytes.now }
{
    if bytes.len() < 8 {
        None
    } else {
        Magic::of(&bytes[..8])
    }
}

/// Whether the bytes begin with a kind that may stand in a part of the file.
fn is_allowed(section: Section, bytes: &[u8]) -> bool
    ensures { result ≡ allowed section (kind_at bytes.now) }
{
    match kind_at(bytes) {
        None => false,
        Some(magic) => section.may_hold(magic),
    }
}

/// The block at the front of the bytes, which stand at a place of the file. It takes no memory.
///
/// The first fault is that of the kind, which may not stand in this part of the file; then those of the header.
#[tactic(auto, unfolding(hfile_form::specs::Blocks::block_at))]
pub fn read_block(section: Section, bytes: &[u8], at: u64) -> Result<ReadBlock<'_>, HFileError>
    // Which block it is, or which fault.
    ensures exact { Gives block_view result (block_at section at bytes.now) }
    ensures within { IfOk result (λ b. 33 + b.header.on_disk ≤ length bytes.now) }
    ensures body { IfOk result (λ b. length b.body.now ≡ b.header.on_disk) }
{
    if !is_allowed(section, bytes) {
        return Err(HFileError::Magic(at));
    }
    let header = read_header(bytes, at)?;
    let (_, behind) = bytes.split_at(HEADER_LEN);
    let (body, _) = behind.split_at(header.on_disk as usize);
    Ok(ReadBlock { header, body })
}
