//! Whether the cells of a file are numbered, by its file info.
ghost use Rattle.std.specs.Prelude.{◌≡◌, List, ℕ, false, IfOk, IfErr};
ghost use Rattle.hfile_meta.specs.Info.{IsInfo, is_encoded, with_numbers};
ghost use Rattle.hfile_form.specs.File.{IsInfoFault};
ghost use Rattle.hfile_read.specs.Answers.{Says};

use hfile_block::HFileError;
use hfile_meta::{MetaError, read_info};
use std::alloc::Global;

/// Whether each cell of the file has its sequence number. The file info's content stands in the block at a place.
///
/// What is not in its form is answered before data blocks that are encoded.
pub fn read_numbered(alloc: Global, content: &[u8], at: u64) -> Result<bool, HFileError>
    ensures found { IfOk result (λ numbered. (pairs : List (List ℕ × List ℕ)) × IsInfo content.now pairs
        × (is_encoded pairs ≡ false) × (numbered ≡ with_numbers pairs)) }
    ensures fault { IfErr result (λ e. Says e (IsInfoFault content.now at e)) }
{
    match read_info(alloc, content) {
        Ok(info) => Ok(info.with_numbers()),
        Err(MetaError::Encoded) => Err(HFileError::Encoded),
        Err(MetaError::NoMemory) => Err(HFileError::NoMemory),
        Err(_) => Err(HFileError::BadInfo(at)),
    }
}
