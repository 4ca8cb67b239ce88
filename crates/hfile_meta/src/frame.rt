//! The form of a trailer.
ghost use Rattle.std.specs.Prelude.{◌≡◌, ◌≢◌, ◌<◌, ◌^◌, ◌++◌, ◌∷◌, ℕ, List, Some, length, replicate, option_map, IfSome, true, false};
ghost use Rattle.hfile_meta.specs.Trailer.{padded};

use wire_fields::get_varint;

/// Whether each of the bytes is 0.
fn are_zeros(bytes: &[u8]) -> bool
    ensures yes { result ≡ true → bytes.now ≡ replicate (length bytes.now) 0 }
    ensures no { result ≡ false → bytes.now ≢ replicate (length bytes.now) 0 }
{
    bytes.iter().all(|byte| *byte == 0)
}

/// The message that stands behind its length, where only zeros stand behind it.
pub fn padded_message(bytes: &[u8]) -> Option<&[u8]>
    ensures found { IfSome result (λ message. (zeros : ℕ) × (bytes.now ≡ padded message.now zeros)) }
    ensures only { (message : List ℕ) (zeros : ℕ) → length message < 2 ^ 64 → bytes.now ≡ padded message zeros
        → option_map (λ found. found.now) result ≡ Some message }
{
    let Ok((len, used)) = get_varint(bytes, 0) else {
        return None;
    };
    let len = len as usize;
    let (_, behind) = bytes.split_at(used);
    if behind.len() < len {
        return None;
    }
    let (message, rest) = behind.split_at(len);
    if are_zeros(rest) { Some(message) } else { None }
}
