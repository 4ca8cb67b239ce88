//! What a message lacks.

/// Why no value is made of a message's fields, each of which is in its grammar.
#[derive(Clone, Copy, Debug, PartialEq, Eq)]
pub enum Unmade {
    /// The field with this number is missing.
    Missing(u32),
    /// The field with this number stands where none is wanted.
    Needless(u32),
}
