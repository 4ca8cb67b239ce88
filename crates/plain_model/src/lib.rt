//! Tables as plain lists of cells: what is asked, what is answered, what happens, and what a state is after it.
//!
//! The plain machine knows no file, link, archive or pass. It is what every reply is judged by.
#![tactic(auto)]

pub mod event;
pub mod hold;
pub mod job;
pub mod laws;
pub mod parts;
pub mod put_cell;
pub mod region_key;
pub mod reply;
pub mod who;

pub use event::Event;
pub use hold::Hold;
pub use job::Job;
pub use parts::{Live, PlainSnapshot, PlainTable, RegionCopy};
pub use put_cell::{MAX_NUMBER, PutCell};
pub use region_key::RegionKey;
pub use reply::Reply;
pub use who::{Actor, Who};

#[cfg(test)]
mod tests;
