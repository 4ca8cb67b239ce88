//! The scripts of the shell: the sessions of a script, and the jobs that their lines ask for.
//!
//! [`parse_script`] answers for every byte string: the script, that it has too many sessions, or its first bad line
//! with the exact place. A script of blocks has a session for each block line, `=== ` and a name; another has one.
#![tactic(auto)]

mod add;
mod block;
mod lines;
pub mod script;
pub mod session;
#[cfg(test)]
mod tests;

pub use script::{ScriptError, parse_script};
pub use session::{NumberedJob, Script, Session};
