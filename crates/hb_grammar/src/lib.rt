//! Grammars of byte strings, read one byte at a time, and the place where a text leaves its grammar.
//!
//! A grammar is a value, and what is left of it after a byte is a value of the same type. So the
//! state of a reader is itself a grammar, and one [`scan`] serves them all: it takes no memory, it
//! answers `Ok` exactly for the strings of the grammar, and else the length of the longest prefix
//! that some string of the grammar begins with.
//!
//! A kind of text is put together from the types of this crate. Its plain definition stands in
//! `specs/`, and the laws of `Same` show that both have the same strings.
#![tactic(auto)]

pub mod at_least;
pub mod between;
pub mod class;
pub mod either;
pub mod end;
pub mod exactly;
pub mod front;
pub mod grammar;
pub mod literal;
pub mod number;
pub mod run;
pub mod separated;
pub mod then;
pub mod until;

pub use at_least::AtLeast;
pub use between::Between;
pub use class::Class;
pub use either::Either;
pub use end::End;
pub use exactly::Exactly;
pub use front::{split_front, split_marked};
pub use grammar::{Closed, Fault, Grammar, scan};
pub use literal::Literal;
pub use number::number_of;
pub use run::Run;
pub use separated::Separated;
pub use then::Then;
pub use until::Until;
