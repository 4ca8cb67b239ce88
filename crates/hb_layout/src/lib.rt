//! Where the files of a store stand: the place of each kind, and that no two share one.
#![tactic(auto)]

pub mod base;
pub mod spots;

pub use base::{Base, archived, live};
pub use spots::{MAX_EPOCH, MAX_LIST_NUMBER, spots_apart};
