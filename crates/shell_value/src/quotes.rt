//! The texts in quotes of a line's arguments.
ghost use Rattle.std.specs.Prelude.{◌≡◌};
ghost use Rattle.shell_value.specs.Quotes.{is_listed, rest_of, text_of};

use crate::cut::{before, behind, has_mark};

/// The text in the first quotes, as it is written.
pub fn text_of(bytes: &[u8]) -> &[u8]
    ensures { result.now ≡ text_of bytes.now }
{
    before(behind(bytes, b'\''), b'\'')
}

/// What stands behind that text and its quotes.
pub fn rest_of(bytes: &[u8]) -> &[u8]
    ensures { result.now ≡ rest_of bytes.now }
{
    behind(behind(bytes, b'\''), b'\'')
}

/// Whether a comma stands before the first quote.
pub fn is_listed(bytes: &[u8]) -> bool
    ensures { result ≡ is_listed bytes.now }
{
    has_mark(before(bytes, b'\''), b',')
}
