//! The parts of the core: what an entry of a journal is, what it makes of the state, when it is allowed, and what holds after it.
#![tactic(auto)]

pub mod entry;
pub mod found;
pub mod journal;
pub mod opening;
pub mod plan;
pub mod recipe;
pub mod region_files;
pub mod snapshot;
pub mod step;
pub mod targets;

pub use entry::Entry;
pub use found::Found;
pub use journal::{JOURNAL_LIMIT, Journal, JournalEntry};
pub use opening::Opening;
pub use plan::Plan;
pub use recipe::Recipe;
pub use region_files::RegionFiles;
pub use snapshot::{CopiedRegion, Snapshot};
pub use step::{Drawn, Started, Step};
pub use targets::{ManifestPart, MoveFrom, OldFile, PinTarget, Why};
