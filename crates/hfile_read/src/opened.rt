//! The parts of an HFile that are loaded on open.
ghost use Rattle.std.specs.Prelude.{◌≡◌, ◌≤◌, ◌<◌, ◌+◌, ◌^◌, length, drop, take, IfOk};
ghost use Rattle.hfile_form.specs.Blocks.{block_at};
ghost use Rattle.hfile_form.specs.File.{opened_at, info_of};
ghost use Rattle.hfile_read.specs.Answers.{Gives};
ghost use Rattle.hfile_read.specs.Views.{block_view, opened_view};

use crate::block::{ReadBlock, read_block};
use hfile_block::HFileError;
use hfile_form::Section;
use hfile_meta::Trailer;

/// The root of the index, the index of meta blocks, and the file info.
#[derive(Clone, Copy)]
pub struct ReadOpened<'a> {
    pub root: ReadBlock<'a>,
    pub meta: ReadBlock<'a>,
    pub info: ReadBlock<'a>,
}

/// The bytes from a place on.
pub fn from_place(bytes: &[u8], at: u64) -> &[u8]
    ensures { result.now ≡ drop at bytes.now }
{
    if at < bytes.len() as u64 {
        let (_, behind) = bytes.split_at(at as usize);
        behind
    } else {
        &[]
    }
}

/// The bytes before a place.
pub fn before_place(bytes: &[u8], at: u64) -> &[u8]
    ensures { result.now ≡ take at bytes.now }
{
    if at < bytes.len() as u64 {
        let (front, _) = bytes.split_at(at as usize);
        front
    } else {
        bytes
    }
}

/// The block at a place of the bytes before the trailer.
fn block_of(section: Section, body: &[u8], at: u64) -> Result<ReadBlock<'_>, HFileError>
    ensures exact { Gives block_view result (block_at section at (drop at body.now)) }
    ensures within { IfOk result (λ b. at + 33 + b.header.on_disk ≤ length body.now) }
{
    read_block(section, from_place(body, at), at)
}

/// The file info behind the two roots, where the trailer tells that it stands there.
fn info_of<'a>(
    trailer: &Trailer,
    root: ReadBlock<'a>,
    meta: ReadBlock<'a>,
    body: &'a [u8],
) -> Result<ReadOpened<'a>, HFileError>
    requires { trailer.now.load_at + 66 + root.header.on_disk + meta.header.on_disk ≤ length body.now }
    ensures exact { Gives opened_view result (info_of trailer.now (block_view root.entry) (block_view meta.entry) body.now) }
    ensures within { IfOk result (λ o. trailer.now.info_at + 33 + o.info.header.on_disk ≤ length body.now) }
{
    if trailer.info_at != trailer.load_at + root.size() + meta.size() {
        return Err(HFileError::BadInfo(trailer.info_at));
    }
    let info = block_of(Section::Infos, body, trailer.info_at)?;
    Ok(ReadOpened { root, meta, info })
}

/// The parts that are loaded on open, in the bytes before the trailer. The first fault is that of the root, then of the
/// index of meta blocks, then of the place of the file info, then of its block.
pub fn read_opened<'a>(trailer: &Trailer, body: &'a [u8]) -> Result<ReadOpened<'a>, HFileError>
    ensures exact { Gives opened_view result (opened_at trailer.now body.now) }
    ensures within { IfOk result (λ o. trailer.now.info_at + 33 + o.info.header.on_disk ≤ length body.now) }
{
    let root = block_of(Section::Roots, body, trailer.load_at)?;
    let meta_at = trailer.load_at + root.size();
    let meta = block_of(Section::Roots, body, meta_at)?;
    info_of(trailer, root, meta, body)
}
