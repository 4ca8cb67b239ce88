//! What a read shows of a table's cells, judged over one plain list of all of them, and the laws of it.
//!
//! The definitions know no file, no stream and no order of arrival. Every theorem on the contents of a table rests on
//! these laws.
#![tactic(auto)]

pub mod laws;
