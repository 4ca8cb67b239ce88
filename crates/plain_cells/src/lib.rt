//! Cells of the plain machine, in lists that are walked: what a read shows of them, slow on purpose.
#![tactic(auto)]

pub mod cells;
pub mod lists;
