//! The parts of which the lines of a script are made: blanks, lists, and the texts of arguments with their escapes.
//!
//! Each part is a grammar of `hb_grammar`. What a text means is a definition in `specs/`.
#![tactic(auto)]

pub mod argument;
pub mod blanks;
mod meant;
pub mod padded;
pub mod repeated;
pub mod text;
pub mod text_end;

pub use argument::Argument;
pub use blanks::Blanks;
pub use padded::Padded;
pub use repeated::Repeated;
pub use text::Text;
pub use text_end::behind_text;
