//! Where a mark stands.

ghost use Rattle.std.specs.Prelude.{◌≡◌, ◌≢◌, ◌+◌, ◌<◌, ◌≤◌, ℕ, length, slice_index, take, drop};

/// The index of the first byte that is the mark, or the length where none is.
pub fn mark_at(bytes: &[u8], mark: u8) -> usize
    ensures within { result ≤ length bytes.now }
    ensures before { (k : ℕ) → k < result → slice_index bytes.now k ≢ mark }
    ensures at { result < length bytes.now → slice_index bytes.now result ≡ mark }
{
    for i in 0..bytes.len() {
        if bytes[i] == mark {
            return i;
        }
    }
    bytes.len()
}

/// The bytes before a mark and those behind it.
pub fn split_mark(bytes: &[u8], at: usize) -> (&[u8], &[u8])
    requires { at < length bytes.now }
    ensures front { result.0.now ≡ take at bytes.now }
    ensures back { result.1.now ≡ drop (at + 1) bytes.now }
{
    (&bytes[..at], &bytes[at + 1..])
}
