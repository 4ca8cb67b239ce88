//! Laws of the printed texts: what is printed tells what was answered.
#![tactic(auto)]

pub mod laws;
