//! What a new table's families and rows of splits must be.

ghost use Rattle.std.specs.Prelude.{◌≡◌, IfOk, option_copied};
ghost use Rattle.plain_model.specs.Replies.{repeated, are_splits};

use hb_names::FamilyName;
use hb_wire::{Blob, Copied, NoMemory};
use std::alloc::Global;

/// The first name that stands before it too.
pub fn repeated(families: &[FamilyName]) -> Option<&FamilyName>
    ensures { option_copied result ≡ repeated families.now }
{
    for i in 0..families.len() {
        let family = &families[i];
        if families[..i].contains(family) {
            return Some(family);
        }
    }
    None
}

/// Whether rows strictly ascend, each of at least a byte.
pub fn are_splits(alloc: Global, rows: &[Blob]) -> Result<bool, NoMemory>
    ensures { IfOk result (λ yes. yes ≡ are_splits rows.now) }
{
    let mut last = Blob::from_vec(Vec::new(alloc));
    for row in rows {
        if !(last < *row) {
            return Ok(false);
        }
        last = row.copy()?;
    }
    Ok(true)
}
