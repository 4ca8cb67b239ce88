//! What each event makes of a plain state, whose parts are lists, slow on purpose.
#![tactic(auto)]

pub(crate) mod activities;
pub(crate) mod after;
pub mod by_region;
pub(crate) mod copies;
pub mod state;
pub mod take;

pub use state::State;
