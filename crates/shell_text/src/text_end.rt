//! The text of an argument at the front of some bytes, in local variables: many times faster than by its grammar alone
//! as a part of larger ones.
ghost use Rattle.std.specs.Prelude.{◌≡◌, ◌≤◌, IfSome, true, length, take, get_or, ◌<◌};
ghost use Rattle.hb_grammar.specs.Marked.{Marked};
ghost use Rattle.shell_text.specs.Text.{IsText};
ghost use Rattle.shell_text.specs.TextLaws.{ArePlain};
ghost use Rattle.shell_text.specs.TextEnd.{HasFront, IsTextEnd};

use crate::argument::Argument;
use crate::meant::is_meant;
use crate::text::{Text, is_plain};
use hb_grammar::Grammar;

/// How many of the first bytes stand for themselves in a text.
fn plain_front(bytes: &[u8]) -> usize
    ensures within { result ≤ length bytes.now }
    ensures plain { ArePlain (take result bytes.now) }
{
    for i in 0..bytes.len() {
        if !is_plain(bytes[i]) {
            return i;
        }
    }
    bytes.len()
}

/// Whether a quote stands at a place.
fn is_quote(bytes: &[u8], at: usize) -> bool
    ensures { result ≡ true → (at < length bytes.now) × (get_or bytes.now at 0 ≡ 39) }
{
    at < bytes.len() && bytes[at] == b'\''
}

/// Where the text of an argument ends, escapes or none.
fn walked_end(argument: Argument, bytes: &[u8]) -> Option<usize>
    ensures { IfSome result (IsTextEnd argument bytes.now) }
{
    let mut left = Text::new(argument);
    for i in 0..bytes.len() {
        if bytes[i] == b'\'' {
            return if left.is_whole() { Some(i) } else { None };
        }
        match left.step(bytes[i]) {
            Some(next) => left = next,
            None => return None,
        }
    }
    None
}

/// Where the text of an argument ends, if it has no escape.
fn plain_end(argument: Argument, bytes: &[u8]) -> Option<usize>
    ensures { IfSome result (IsTextEnd argument bytes.now) }
{
    let count = plain_front(bytes);
    if is_quote(bytes, count) && is_meant(argument, &bytes[..count]) {
        Some(count)
    } else {
        None
    }
}

/// Where the text of an argument ends.
fn end_of_text(argument: Argument, bytes: &[u8]) -> Option<usize>
    ensures { IfSome result (IsTextEnd argument bytes.now) }
{
    match plain_end(argument, bytes) {
        Some(end) => Some(end),
        None => walked_end(argument, bytes),
    }
}

/// What stands behind the text of an argument and the quote that ends it, if the bytes begin with them.
pub fn behind_text(argument: Argument, bytes: &[u8]) -> Option<&[u8]>
    ensures { IfSome result (λ rest. HasFront (Marked (IsText argument) 39) bytes.now rest.now) }
{
    match end_of_text(argument, bytes) {
        Some(end) => Some(&bytes[end + 1..]),
        None => None,
    }
}
