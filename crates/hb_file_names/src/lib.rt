//! The names of store files, and of the links, references and back references to them.
//!
//! A contract sees a name as its bytes. Each kind has a `parse`, which takes no memory and gives the
//! parts or the place where the input leaves the grammar, a `read` for the owned value, and a `write`.
#![tactic(auto)]

mod back_grammar;
pub mod back_ref;
mod digits;
pub mod file_grammar;
pub mod file_name;
pub mod file_parts;
mod half_grammar;
pub mod laws;
pub mod link_grammar;
pub mod link_name;
mod mark;
pub mod ref_grammar;
pub mod ref_name;
mod suffix;
#[cfg(test)]
mod tests;

pub use back_ref::{BackParts, BackRef};
pub use file_name::FileName;
pub use file_parts::FileParts;
pub use laws::names_told;
pub use link_name::{LinkName, LinkParts};
pub use ref_name::{RefName, RefParts};
