//! The names of what the store keeps, each a text of a grammar of its own.
//!
//! A value of a type of this crate has a valid text: a contract sees it as its bytes, and its type
//! keeps the grammar. Each type has a `parse`, which takes no memory and gives the part of the input
//! or the place where it leaves the grammar, a `read` for the owned value, and a `write`.
#![tactic(auto)]

pub mod component;
pub mod encoded;
pub mod error;
pub mod family_grammar;
pub mod family_name;
pub mod place;
pub mod qualifier;
pub mod region_name;
pub mod snap_name;
pub mod table_name;
#[cfg(test)]
mod tests;

pub use encoded::Encoded;
pub use error::{BadName, NameError};
pub use family_name::FamilyName;
pub use place::{MAX_COMPONENTS, Place, places_are_components};
pub use region_name::{RegionName, encode_region};
pub use snap_name::SnapName;
pub use table_name::TableName;
