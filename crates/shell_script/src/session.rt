//! Scripts and their sessions.

use hb_wire::{Blob, Items};
use plain_model::Job;

/// A job, and the number of the line that asks for it, counted from 1.
#[derive(Debug, Drop)]
pub struct NumberedJob {
    pub line: u32,
    pub job: Job,
}

/// A part of a script that runs in the order of its lines.
#[derive(Debug, Drop)]
pub struct Session {
    /// The name of its block, or no bytes in a script without blocks.
    pub name: Blob,
    /// What its lines ask for.
    pub lines: Items<NumberedJob>,
}

/// What was read of a whole input.
#[derive(Debug, Drop)]
pub struct Script {
    pub sessions: Items<Session>,
}
