//! The tables, regions and snapshots of a plain state, in lists that are walked, slow on purpose.
#![tactic(auto)]

pub mod keys;
pub mod new_tables;
pub mod regions;
pub mod snapshots;
pub mod tables;
