//! The core: a state that is the replay of its journal.
#![tactic(auto)]

pub mod at_work;
pub mod change;
pub mod counts;
pub mod drawn;
pub mod kept;
pub mod places;
pub mod sets;
pub mod state;
pub mod written;

pub use at_work::{AtWork, Begun};
pub use counts::Counts;
pub use kept::Core;
pub use state::CoreState;
pub use written::WrittenFile;

#[cfg(test)]
mod tests;
