//! Whether bytes are a line of a script, and else how far they could have been one.
ghost use Rattle.std.specs.Prelude.{◌≡◌, ◌<◌, ◌≤◌, ◌+◌, All, Contains, IfOk, IfErr, IfSome, IfNone, length, take, get_or, true, false};
ghost use Rattle.hb_grammar.specs.Grammar.{IsFault};
ghost use Rattle.shell_line.specs.Table.{IsCreate, IsDelete, IsOne, IsPut, IsTwo};
ghost use Rattle.shell_line.specs.Line.{Begins, IsArguments, IsBegun, IsLine, IsLineOf, word};

use crate::line_form::{create, delete, one, put, two};
use crate::line_kind::{Arguments, LineKind};
use crate::put_line::is_short_put;
use hb_grammar::{Fault, scan};
use shell_text::{Argument, Blanks};

/// Scans one argument.
fn scan_one(argument: Argument, bytes: &[u8]) -> Result<(), Fault>
    ensures found { IfOk result (λ _. IsOne argument bytes.now) }
    ensures fault { IfErr result (λ fault. IsFault (IsOne argument) bytes.now fault.0) }
{
    let grammar = one(argument);
    match scan(grammar, bytes) {
        Ok(()) => Ok(()),
        Err(fault) => Err(fault),
    }
}

/// Scans two arguments.
fn scan_two(first: Argument, second: Argument, bytes: &[u8]) -> Result<(), Fault>
    ensures found { IfOk result (λ _. IsTwo first second bytes.now) }
    ensures fault { IfErr result (λ fault. IsFault (IsTwo first second) bytes.now fault.0) }
{
    let grammar = two(first, second);
    match scan(grammar, bytes) {
        Ok(()) => Ok(()),
        Err(fault) => Err(fault),
    }
}

/// Scans what a line puts: argument by argument, and by its whole grammar where that doesn't take it, since only that tells
/// the place of a fault.
fn scan_put(bytes: &[u8]) -> Result<(), Fault>
    ensures found { IfOk result (λ _. IsPut bytes.now) }
    ensures fault { IfErr result (λ fault. IsFault IsPut bytes.now fault.0) }
{
    if is_short_put(bytes) {
        return Ok(());
    }
    let grammar = put();
    match scan(grammar, bytes) {
        Ok(()) => Ok(()),
        Err(fault) => Err(fault),
    }
}

/// Scans what a line deletes.
fn scan_delete(bytes: &[u8]) -> Result<(), Fault>
    ensures found { IfOk result (λ _. IsDelete bytes.now) }
    ensures fault { IfErr result (λ fault. IsFault IsDelete bytes.now fault.0) }
{
    let grammar = delete();
    match scan(grammar, bytes) {
        Ok(()) => Ok(()),
        Err(fault) => Err(fault),
    }
}

/// Scans what a line creates.
fn scan_create(bytes: &[u8]) -> Result<(), Fault>
    ensures found { IfOk result (λ _. IsCreate bytes.now) }
    ensures fault { IfErr result (λ fault. IsFault IsCreate bytes.now fault.0) }
{
    let grammar = create();
    match scan(grammar, bytes) {
        Ok(()) => Ok(()),
        Err(fault) => Err(fault),
    }
}

/// Scans the arguments of a line.
fn scan_arguments(arguments: Arguments, bytes: &[u8]) -> Result<(), Fault>
    ensures found { IfOk result (λ _. IsArguments arguments bytes.now) }
    ensures fault { IfErr result (λ fault. IsFault (IsArguments arguments) bytes.now fault.0) }
{
    match arguments {
        Arguments::Nothing => scan(Blanks { some: false }, bytes),
        Arguments::One(argument) => scan_one(argument, bytes),
        Arguments::Two(first, second) => scan_two(first, second, bytes),
        Arguments::Put => scan_put(bytes),
        Arguments::Delete => scan_delete(bytes),
        Arguments::Create => scan_create(bytes),
    }
}

/// Whether the bytes are the word of a kind.
fn is_word(kind: LineKind, bytes: &[u8]) -> bool
    ensures yes { result ≡ true → word kind ≡ bytes.now }
    ensures no { result ≡ false → word kind ≡ bytes.now → ⊥ }
{
    kind.word() == bytes
}

/// Whether the first bytes of a text, which is no shorter, are these.
fn is_at_front(text: &[u8], bytes: &[u8]) -> bool
    requires { length bytes.now ≤ length text.now }
    ensures yes { result ≡ true → take (length bytes.now) text.now ≡ bytes.now }
    ensures no { result ≡ false → take (length bytes.now) text.now ≡ bytes.now → ⊥ }
{
    &text[..bytes.len()] == bytes
}

/// Whether the word of a kind begins with some bytes.
fn is_front(kind: LineKind, bytes: &[u8]) -> bool
    ensures yes { result ≡ true → Begins bytes.now (word kind) }
    ensures no { result ≡ false → Begins bytes.now (word kind) → ⊥ }
{
    let word = kind.word();
    if word.len() < bytes.len() {
        return false;
    }
    is_at_front(word, bytes)
}

/// The kind whose word the bytes are.
fn kind_of_word(kinds: &[LineKind], bytes: &[u8]) -> Option<LineKind>
    ensures found { IfSome result (λ kind. Contains kinds.now kind × (word kind ≡ bytes.now)) }
    ensures none { IfNone result (All (λ kind. word kind ≡ bytes.now → ⊥) kinds.now) }
{
    for kind in kinds {
        if is_word(*kind, bytes) {
            return Some(*kind);
        }
    }
    None
}

/// A kind whose word begins with the bytes.
fn kind_of_front(kinds: &[LineKind], bytes: &[u8]) -> Option<LineKind>
    ensures found { IfSome result (λ kind. Contains kinds.now kind × Begins bytes.now (word kind)) }
    ensures none { IfNone result (All (λ kind. Begins bytes.now (word kind) → ⊥) kinds.now) }
{
    for kind in kinds {
        if is_front(*kind, bytes) {
            return Some(*kind);
        }
    }
    None
}

/// Whether some kind's word begins with the bytes.
fn is_begun(kinds: &[LineKind], bytes: &[u8]) -> bool
    ensures yes { result ≡ true → IsBegun kinds.now bytes.now }
    ensures no { result ≡ false → IsBegun kinds.now bytes.now → ⊥ }
{
    match kind_of_front(kinds, bytes) {
        Some(_) => true,
        None => false,
    }
}

/// How many of the first bytes are a front of a word, up to the first blank or the end.
fn word_end(kinds: &[LineKind], bytes: &[u8]) -> usize
    requires { 0 < length kinds.now }
    ensures within { result ≤ length bytes.now }
    ensures begun { IsBegun kinds.now (take result bytes.now) }
    ensures stops { result < length bytes.now → (get_or bytes.now result 0 ≡ 32 → ⊥) → IsBegun kinds.now (take (result + 1) bytes.now) → ⊥ }
{
    for i in 0..bytes.len() {
        if bytes[i] == b' ' {
            return i;
        }
        if !is_begun(kinds, &bytes[..i + 1]) {
            return i;
        }
    }
    bytes.len()
}

/// Whether another byte than a blank stands at a place.
fn is_other(bytes: &[u8], at: usize) -> bool
    ensures yes { result ≡ true → (at < length bytes.now) × (get_or bytes.now at 0 ≡ 32 → ⊥) }
    ensures no { result ≡ false → at < length bytes.now → get_or bytes.now at 0 ≡ 32 }
{
    at < bytes.len() && bytes[at] != b' '
}

/// The kind of the line that the bytes are, if they are one of the kinds given; and else the length of their longest
/// prefix with which such a line begins. It takes no memory.
pub fn check_line(kinds: &[LineKind], bytes: &[u8]) -> Result<LineKind, Fault>
    requires { 0 < length kinds.now }
    ensures found { IfOk result (λ _. IsLine kinds.now bytes.now) }
    ensures kind { IfOk result (λ kind. Contains kinds.now kind × IsLineOf kind bytes.now) }
    ensures fault { IfErr result (λ fault. IsFault (IsLine kinds.now) bytes.now fault.0) }
{
    let end = word_end(kinds, bytes);
    if is_other(bytes, end) {
        return Err(Fault(end));
    }
    let (front, rest) = bytes.split_at(end);
    let kind = match kind_of_word(kinds, front) {
        Some(kind) => kind,
        None => return Err(Fault(end)),
    };
    match scan_arguments(kind.arguments(), rest) {
        Ok(()) => Ok(kind),
        Err(fault) => Err(Fault(end + fault.0)),
    }
}
