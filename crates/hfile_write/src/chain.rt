//! Blocks of one kind, written one after another.
ghost use Rattle.std.specs.Prelude.{◌≡◌, ◌++◌, FitsSigned, IfOk, OnOk, OnErr};
ghost use Rattle.std.specs.Int.{w64, cast_unsigned};
ghost use Rattle.std.specs.List.{AllByRecursion};
ghost use Rattle.hfile_block.specs.Header.{block_bytes};
ghost use Rattle.hfile_index.specs.Short.{IsSmall};
ghost use Rattle.hfile_write.specs.Written.{previous_of, with_blocks, total_len};

use crate::summary::more;
use hb_wire::{Blob, NoMemory};
use hfile_block::{Magic, write_block};

/// The place of the previous block of a kind as a header has it: -1 where there is none.
fn previous_of(before: Option<u64>) -> i64
    ensures exact { cast_unsigned w64 result ≡ cast_unsigned w64 (previous_of before) }
    ensures fits { FitsSigned w64 result }
{
    match before {
        None => -1,
        Some(at) => at.cast_signed(),
    }
}

/// Adds a block, by the place of the one before it of its kind. Without memory for it nothing changes.
pub fn put_block(
    out: &mut Blob,
    magic: Magic,
    content: &[u8],
    before: Option<u64>,
) -> Result<(), NoMemory>
    requires { IsSmall content.now }
    ensures ok { OnOk result (out.new ≡ out.old ++ block_bytes magic content.now (previous_of before)) }
    ensures err { OnErr result (out.new ≡ out.old) }
{
    write_block(out, magic, content, previous_of(before))
}

/// Adds all blocks of a kind, one after another.
pub fn put_chain(out: &mut Blob, magic: Magic, contents: &[Blob]) -> Result<(), NoMemory>
    requires { AllByRecursion IsSmall contents.now }
    ensures { OnOk result (out.new ≡ with_blocks magic contents.now out.old) }
{
    let mut before = None;
    for content in contents {
        let at = out.len() as u64;
        put_block(out, magic, content.as_slice(), before)?;
        before = Some(at);
    }
    Ok(())
}

/// How many bytes contents have.
pub fn total_len(contents: &[Blob]) -> Result<u64, NoMemory>
    ensures { IfOk result (λ total. total ≡ total_len contents.now) }
{
    let mut total = 0;
    for content in contents {
        total = more(total, content.len())?;
    }
    Ok(total)
}
