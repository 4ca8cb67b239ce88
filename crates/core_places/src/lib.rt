//! Which files stand: what the core keeps of a store's files while it runs.
#![tactic(auto)]

pub mod below;
pub mod change;
pub mod laws;
pub mod places;
pub mod texts;

pub use below::stands_below;
pub use change::{PlaceChange, change_of};
pub use places::{places_after, ready_places};
pub use texts::{set_place, tmp_place};

#[cfg(test)]
mod tests;
