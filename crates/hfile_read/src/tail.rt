//! The trailer at the end of an HFile, and the blocks that are passed over before it.
ghost use Rattle.std.specs.Prelude.{◌≡◌, ◌≤◌, ◌<◌, ◌+◌, ◌^◌, ℕ, length, Ok, IfOk, IfErr};
ghost use Rattle.hfile_form.specs.declared.section.Section.TheVariants.{Others};
ghost use Rattle.hfile_form.specs.Blocks.{blocks_at};
ghost use Rattle.hfile_form.specs.File.{version_two, TrailerTells, IsTrailerFault, as_fault, passed};
ghost use Rattle.hfile_read.specs.Answers.{Gives};

use crate::block::read_block;
use hfile_block::HFileError;
use hfile_form::Section;
use hfile_meta::{MetaError, Trailer};

/// The fault of a file, for what was wrong with its trailer or its file info.
fn as_fault(fault: MetaError) -> HFileError
    ensures { result ≡ as_fault fault }
{
    match fault {
        MetaError::BadTrailer(at) => HFileError::BadTrailer(at),
        MetaError::Version(major) => HFileError::Version(major),
        MetaError::Compressed(method) => HFileError::Compressed(method),
        MetaError::BadInfo(at) => HFileError::BadInfo(at),
        MetaError::Encoded => HFileError::Encoded,
        MetaError::NoMemory => HFileError::NoMemory,
    }
}

/// What the trailer of a file tells. The first fault is that of the file's length, of the major version, of the form and
/// of the fields that are needed, and then of the compression.
pub fn read_trailer(bytes: &[u8]) -> Result<Trailer, HFileError>
    ensures found { IfOk result (λ trailer. TrailerTells version_two bytes.now (Ok trailer)) }
    ensures fault { IfErr result (λ e. IsTrailerFault bytes.now e) }
{
    match hfile_meta::read_trailer(bytes) {
        Ok(trailer) => Ok(trailer),
        Err(fault) => Err(as_fault(fault)),
    }
}

/// Passes over the blocks that stand one after another from a place of the file on, or tells the first fault of one.
pub fn pass_blocks(bytes: &[u8], from: u64) -> Result<(), HFileError>
    requires { from + length bytes.now < 2 ^ 64 }
    ensures { (more : ℕ) → length bytes.now ≤ more → Gives (λ _. tt) result (blocks_at passed Others more from bytes.now tt) }
{
    let mut at = from;
    let mut rest = bytes;
    while !rest.is_empty() {
        let block = read_block(Section::Others, rest, at)?;
        let (_, behind) = rest.split_at(block.size() as usize);
        at += block.size();
        rest = behind;
    }
    Ok(())
}
