//! Bytes cut at the first of some mark.
ghost use Rattle.std.specs.Prelude.{◌≡◌};
ghost use Rattle.shell_value.specs.Cut.{before, behind, has_mark};

/// What stands before the first mark, or all where there is none.
pub fn before(bytes: &[u8], mark: u8) -> &[u8]
    ensures { result.now ≡ before mark bytes.now }
{
    for i in 0..bytes.len() {
        if bytes[i] == mark {
            return &bytes[..i];
        }
    }
    bytes
}

/// What stands behind the first mark, or nothing where there is none.
pub fn behind(bytes: &[u8], mark: u8) -> &[u8]
    ensures { result.now ≡ behind mark bytes.now }
{
    for i in 0..bytes.len() {
        if bytes[i] == mark {
            return &bytes[i + 1..];
        }
    }
    &bytes[bytes.len()..]
}

/// Whether the mark is among the bytes.
pub fn has_mark(bytes: &[u8], mark: u8) -> bool
    ensures { result ≡ has_mark mark bytes.now }
{
    bytes.iter().any(|byte| *byte == mark)
}
