//! What an HFile says of itself: its trailer and its file info, read and written.
#![tactic(auto)]

pub mod fault;
pub mod frame;
pub mod info;
pub mod trailer;
pub mod written;
pub mod written_info;

pub use fault::MetaError;
pub use info::{Info, read_info};
pub use trailer::{TRAILER_LEN, Trailer, read_trailer};
pub use written::write_trailer;
pub use written_info::write_info;

#[cfg(test)]
mod tests;
