//! Journals.

use crate::{Opening, Step};
use hb_wire::Items;

/// A step that a worker made, or whose writing operation failed.
#[derive(Drop)]
pub struct JournalEntry {
    pub worker: u32,
    pub step: Step,
    pub failed: bool,
}

/// How many entries a journal has at most.
pub const JOURNAL_LIMIT: u32 = 4_194_304;

/// What happened since an opening.
#[derive(Drop)]
pub struct Journal {
    pub opening: Opening,
    pub entries: Items<JournalEntry>,
}
