//! What a line puts, argument by argument: a short way to take good lines, which are most.
ghost use Rattle.std.specs.Prelude.{◌≡◌, IfSome, true};
ghost use Rattle.hb_grammar.specs.Numeral.{IsNumeral};
ghost use Rattle.shell_text.specs.TextEnd.{HasFront};
ghost use Rattle.shell_line.specs.Table.{IsItem, IsLead, IsPut, IsQuoted, IsStamp};
ghost use Rattle.shell_line.specs.declared.form.TheConstants.{MAX_STAMP};

use crate::form::MAX_STAMP;
use crate::piece::lead;
use hb_grammar::{Between, scan, split_front};
use shell_text::argument::{Argument, NAME, ROW, VALUE};
use shell_text::text_end::behind_text;

/// What stands behind blanks and a mark, if the bytes begin with them.
fn behind_lead(some: bool, mark: u8, bytes: &[u8]) -> Option<&[u8]>
    requires { mark ≡ 32 → ⊥ }
    ensures { IfSome result (λ rest. HasFront (IsLead some mark) bytes.now rest.now) }
{
    let front = lead(some, mark);
    match split_front(front, bytes) {
        Ok((_, rest)) => Some(rest),
        Err(_) => None,
    }
}

/// What stands behind blanks and an argument in its quotes, if the bytes begin with them.
fn behind_quoted(some: bool, argument: Argument, bytes: &[u8]) -> Option<&[u8]>
    ensures { IfSome result (λ rest. HasFront (IsQuoted some argument) bytes.now rest.now) }
{
    let text = behind_lead(some, b'\'', bytes)?;
    match behind_text(argument, text) {
        Some(rest) => Some(rest),
        None => None,
    }
}

/// What stands behind a further argument, if the bytes begin with one.
fn behind_item(argument: Argument, bytes: &[u8]) -> Option<&[u8]>
    ensures { IfSome result (λ rest. HasFront (IsItem argument) bytes.now rest.now) }
{
    let quoted = behind_lead(false, b',', bytes)?;
    match behind_quoted(false, argument, quoted) {
        Some(rest) => Some(rest),
        None => None,
    }
}

/// Whether the bytes are a timestamp.
fn is_number(bytes: &[u8]) -> bool
    ensures { result ≡ true → IsNumeral 0 MAX_STAMP bytes.now }
{
    let number = Between::new(0, MAX_STAMP);
    match scan(number, bytes) {
        Ok(()) => true,
        Err(_) => false,
    }
}

/// Whether the bytes are nothing, or a comma and a timestamp with no blanks behind the comma or the number.
fn is_short_stamp(bytes: &[u8]) -> bool
    ensures { result ≡ true → IsStamp bytes.now }
{
    if bytes.is_empty() {
        return true;
    }
    match behind_lead(false, b',', bytes) {
        Some(number) => is_number(number),
        None => false,
    }
}

/// Whether the bytes are what a line puts, without blanks at its end or before its timestamp. Others may be so too.
pub(crate) fn is_short_put(bytes: &[u8]) -> bool
    ensures { result ≡ true → IsPut bytes.now }
{
    let Some(row) = behind_quoted(true, NAME, bytes) else {
        return false;
    };
    let Some(column) = behind_item(ROW, row) else {
        return false;
    };
    let Some(value) = behind_item(Argument::Column, column) else {
        return false;
    };
    let Some(end) = behind_item(VALUE, value) else {
        return false;
    };
    is_short_stamp(end)
}
