//! That the guards of the core can be met by a bulk load: a concrete journal of allowed entries, from a store with waiting files alone.
#![tactic(auto)]

pub mod laws;
