//! Whether bytes are the meaning of an argument, by loops of their own for the kinds that stand in most lines.
ghost use Rattle.std.specs.Prelude.{◌≡◌, ◌≤◌, ◌+◌, Some, None, true, length};
ghost use Rattle.hb_grammar.specs.declared.class.Class.TheVariants.{Name};
ghost use Rattle.hb_grammar.specs.Class.{AllIn};
ghost use Rattle.shell_text.specs.declared.argument.Argument.TheVariants.{Column, Named, Qualifier, Run};
ghost use Rattle.shell_text.specs.Argument.{Means};

use crate::argument::{Argument, MAX_QUALIFIER};
use hb_grammar::Class;

/// Whether there are so many bytes, and up to so many more.
fn is_run(least: usize, more: usize, bytes: &[u8]) -> bool
    ensures { result ≡ true → Means (Run None least more) bytes.now }
{
    least <= bytes.len() && bytes.len() - least <= more
}

/// Whether each byte may stand in a name.
fn are_in_name(bytes: &[u8]) -> bool
    ensures { result ≡ true → AllIn Name bytes.now }
{
    for i in 0..bytes.len() {
        if !Class::Name.has(bytes[i]) {
            return false;
        }
    }
    true
}

/// Whether the bytes are up to so many of a name.
fn is_name_end(most: usize, bytes: &[u8]) -> bool
    ensures { result ≡ true → Means (Run (Some Name) 0 most) bytes.now }
{
    bytes.len() <= most && are_in_name(bytes)
}

/// Whether the bytes are a name: one of a class, and up to so many of a name.
fn is_named(class: Class, more: usize, bytes: &[u8]) -> bool
    ensures { result ≡ true → Means (Named class more) bytes.now }
{
    match bytes {
        [] => false,
        [first, rest @ ..] => class.has(*first) && is_name_end(more, rest),
    }
}

/// Whether the bytes are the rest of a family's name, up to so many, a colon and a qualifier.
fn is_qualified(more: usize, bytes: &[u8]) -> bool
    ensures { result ≡ true → Means (Qualifier more) bytes.now }
{
    for i in 0..bytes.len() {
        if bytes[i] == b':' {
            return i <= more && bytes.len() - i - 1 <= MAX_QUALIFIER;
        }
        if !Class::Name.has(bytes[i]) {
            return false;
        }
    }
    false
}

/// Whether the bytes are a family's name, a colon and a qualifier.
fn is_column(bytes: &[u8]) -> bool
    ensures { result ≡ true → Means Column bytes.now }
{
    match bytes {
        [] => false,
        [first, rest @ ..] => Class::FamilyStart.has(*first) && is_qualified(126, rest),
    }
}

/// Whether the bytes are the meaning of an argument that is a name, a row, a value or a column. It refuses others.
pub(crate) fn is_meant(argument: Argument, bytes: &[u8]) -> bool
    ensures { result ≡ true → Means argument bytes.now }
{
    match argument {
        Argument::Run(None, least, more) => is_run(least, more, bytes),
        Argument::Named(class, more) => is_named(class, more, bytes),
        Argument::Column => is_column(bytes),
        _ => false,
    }
}
