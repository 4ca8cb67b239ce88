//! Lines of scripts of every kind against a table of their language: each front of a good line, and each line with one
//! byte changed, is bad where the table says; and so are rows by name. There is nothing here but tests.
#![tactic(auto)]

#[cfg(test)]
mod forms;
#[cfg(test)]
mod parts;
#[cfg(test)]
mod rows;
#[cfg(test)]
mod tests;
