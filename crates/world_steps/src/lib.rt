//! A store, a clock and a core: the calls that make entries.
#![tactic(auto)]

mod asked;
pub mod commits;
pub mod ends;
pub mod files;
mod ghosts;
pub mod lists;
pub mod refusal;
mod regions;
pub mod starts;
mod taken;
pub mod world;
mod writing;

pub use refusal::{Cause, Counter, Damage, Refusal};
pub use world::World;

#[cfg(test)]
mod tests;
