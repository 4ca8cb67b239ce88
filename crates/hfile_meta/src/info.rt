//! The file info.
ghost use Rattle.std.specs.Prelude.{◌≡◌, ◌≢◌, ℕ, List, ◌<◌, ◌^◌, ◌++◌, Bool, Some, None, Ok, Err, length, codes, map, option_map, IfOk, IfSome};
ghost use Rattle.wire_fields.specs.Message.{later};
ghost use Rattle.hfile_meta.specs.Trailer.{delimited};
ghost use Rattle.hfile_meta.specs.Info.{last_of, IsPair, ArePairs, IsInfo, is_encoding, is_encoded, with_numbers, last_value, value_here, is_version_one, HasOnePairs, IsInfoAnswer};

use crate::MetaError;
use crate::frame::padded_message;
use hb_wire::{Blob, Items, NoMemory};
use std::alloc::Global;
use wire_fields::{get_varint, texts};

/// What an HFile says of itself, as pairs of a key and a value. Source: HBase `HFileInfo`.
#[derive(Debug, Drop)]
pub struct Info {
    pub pairs: Items<(Blob, Blob)>,
}

/// Whether a pair says that the data blocks are encoded.
fn is_encoding(pair: &(Blob, Blob)) -> bool
    ensures { result ≡ is_encoding pair.now }
{
    pair.0.as_slice() == b"DATA_BLOCK_ENCODING".as_slice()
        && pair.1.as_slice() != b"NONE".as_slice()
}

/// Whether one of the pairs says that the data blocks are encoded.
fn is_encoded(pairs: &[(Blob, Blob)]) -> bool
    ensures { result ≡ is_encoded pairs.now }
{
    pairs.iter().any(|pair| is_encoding(pair))
}

/// The message that stands behind `PBUF` and its length, to the end.
fn message_of(content: &[u8]) -> Option<&[u8]>
    ensures small { IfSome result (λ message. length message.now < 2 ^ 64) }
    ensures found { IfSome result (λ message. content.now ≡ codes "PBUF" ++ delimited message.now) }
    ensures only { (message : List ℕ) → length message < 2 ^ 64 → content.now ≡ codes "PBUF" ++ delimited message
        → option_map (λ found. found.now) result ≡ Some message }
{
    if content.len() < 4 {
        return None;
    }
    let (front, behind) = content.split_at(4);
    if front != b"PBUF".as_slice() {
        return None;
    }
    let (len, used) = get_varint(behind, 0).ok()?;
    let (_, message) = behind.split_at(used);
    if message.len() as u64 == len {
        Some(message)
    } else {
        None
    }
}

/// The last of some texts.
fn last_of(texts: Vec<&[u8]>) -> Option<&[u8]>
    ensures { option_map (λ t. t.now) result ≡ last_of (map (λ t. t.now) texts.entry.items) }
{
    let mut texts = texts;
    texts.pop()
}

/// The key and the value that a message tells, or none where it is no message or lacks one of them.
fn pair_of(alloc: Global, bytes: &[u8]) -> Result<Option<(Blob, Blob)>, NoMemory>
    ensures found { IfOk result (λ answer. IfSome answer (λ pair. IsPair bytes.now pair)) }
    ensures none { IfOk result (λ answer. answer ≡ None → (pair : List ℕ × List ℕ) → IsPair bytes.now pair → ⊥) }
{
    let Some(keys) = texts(alloc, bytes, 1)? else {
        return Ok(None);
    };
    let Some(values) = texts(alloc, bytes, 2)? else {
        return Ok(None);
    };
    let Some(key) = last_of(keys) else {
        return Ok(None);
    };
    let Some(value) = last_of(values) else {
        return Ok(None);
    };
    Ok(Some((Blob::copy_of(alloc, key)?, Blob::copy_of(alloc, value)?)))
}

/// The pairs that some messages tell, or none where one of them tells none.
fn pairs_of(alloc: Global, texts: &[&[u8]]) -> Result<Option<Vec<(Blob, Blob)>>, NoMemory>
    ensures found { IfOk result (λ answer. IfSome answer (λ pairs. ArePairs (map (λ t. t.now) texts.now) pairs.items)) }
    ensures none { IfOk result (λ answer. answer ≡ None
        → (pairs : List (List ℕ × List ℕ)) → ArePairs (map (λ t. t.now) texts.now) pairs → ⊥) }
{
    let mut pairs = Vec::new(alloc);
    for text in texts {
        let Some(pair) = pair_of(alloc, text)? else {
            return Ok(None);
        };
        pairs.push(pair)?;
    }
    Ok(Some(pairs))
}

/// The pairs of a file info's content.
fn info_of(alloc: Global, content: &[u8]) -> Result<Option<Vec<(Blob, Blob)>>, NoMemory>
    ensures found { IfOk result (λ answer. IfSome answer (λ pairs. IsInfo content.now pairs.items)) }
    ensures none { IfOk result (λ answer. answer ≡ None
        → (pairs : List (List ℕ × List ℕ)) → IsInfo content.now pairs → ⊥) }
{
    let Some(message) = message_of(content) else {
        return Ok(None);
    };
    let Some(messages) = texts(alloc, message, 1)? else {
        return Ok(None);
    };
    pairs_of(alloc, messages.as_slice())
}

/// The file info that a block's content is, with all its pairs, in their order.
///
/// What is not in its form is answered before data blocks that are encoded. Source: HBase Reference Guide, HFile
/// format, file info; `HFileInfo`.
pub fn read_info(alloc: Global, content: &[u8]) -> Result<Info, MetaError>
    ensures { IsInfoAnswer content.now result }
{
    let Some(pairs) = info_of(alloc, content)? else {
        return Err(MetaError::BadInfo(0));
    };
    if is_encoded(pairs.as_slice()) {
        return Err(MetaError::Encoded);
    }
    Ok(Info {
        pairs: Items::from_vec(pairs),
    })
}

/// There is one list of pairs for a content.
pub fn one_info()
    ensures { (content : List ℕ) → HasOnePairs content }
{}

/// The second value where there is one, else the first.
fn later<'a>(before: Option<&'a [u8]>, last: Option<&'a [u8]>) -> Option<&'a [u8]>
    ensures { option_map (λ t. t.now) result ≡ later (option_map (λ t. t.now) before.entry) (option_map (λ t. t.now) last.entry) }
{
    match last {
        None => before,
        last => last,
    }
}

/// The value of a pair that has this key.
fn value_here<'a>(key: &[u8], pair: &'a (Blob, Blob)) -> Option<&'a [u8]>
    ensures { option_map (λ t. t.now) result ≡ value_here key.now pair.now }
{
    if pair.0.as_slice() == key {
        Some(pair.1.as_slice())
    } else {
        None
    }
}

/// The value of the last pair with this key.
fn last_value<'a>(key: &[u8], pairs: &'a [(Blob, Blob)]) -> Option<&'a [u8]>
    ensures { option_map (λ t. t.now) result ≡ last_value key.now pairs.now }
{
    let mut last = None;
    for pair in pairs {
        last = later(last, value_here(key, pair));
    }
    last
}

impl Info {
    /// Whether each cell of the file has its sequence number. Source: HBase `HFileWriterImpl`, `KEY_VALUE_VERSION`.
    pub fn with_numbers(&self) -> bool
        ensures { result ≡ with_numbers self.now.pairs }
    {
        match last_value(b"KEY_VALUE_VERSION", self.pairs.as_slice()) {
            None => false,
            Some(value) => value == [0, 0, 0, 1].as_slice(),
        }
    }
}
