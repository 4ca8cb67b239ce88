//! What an HFile is, as a cut of its bytes; the first fault of bytes that are none; and the laws that join the two.
#![tactic(auto)]

pub mod front;
pub mod laws;
pub mod section;

pub use front::DataBlock;
pub use section::Section;
