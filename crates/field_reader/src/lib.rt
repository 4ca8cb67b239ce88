//! Messages read by the rules of their fields, and where they are wrong.
#![tactic(auto)]

pub mod fault;
pub mod fields;
pub mod made;
pub mod met;
pub mod rule;
pub mod walk;

pub use fault::RecordError;
pub use fields::{Fields, Last, Repeated};
pub use made::{need, told};
pub use met::{Met, met_number, met_text};
pub use rule::Rule;
pub use walk::read_fields;
