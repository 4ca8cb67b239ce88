//! The sequence number at the end of a file name.

ghost use Rattle.std.specs.Prelude.{◌≡◌, ◌≤◌, ◌++◌, Some, IfSome, IfOk, OnOk, OnErr};
ghost use Rattle.hb_grammar.specs.Grammar.{Same};
ghost use Rattle.hb_file_names.specs.FileName.{IsSuffix};
ghost use Rattle.hb_file_names.specs.FileParts.{suffix_text};

use crate::file_parts::MAX_SEQ;
use hb_grammar::{Between, Either, End, Grammar, Literal, Then, Until, number_of};
use hb_wire::{Blob, NoMemory};
use std::alloc::Global;

type SuffixParts = Either<End, Then<Literal, Until<Between>>>;

/// Nothing, or `_SeqId_`, a decimal number up to 2 ^ 63 - 1, and `_`.
#[derive(Clone, Copy)]
pub struct SuffixGrammar {
    left: SuffixParts,
}

fn suffix_parts() -> SuffixParts
    ensures { Same (⟦<SuffixParts as Grammar>⟧.spells result) IsSuffix }
{
    let number = Until::new(Between::new(0, MAX_SEQ), b'_');
    let seq = Then::new(Literal { text: b"_SeqId_" }, number);
    Either::new(End, seq)
}

/// The grammar of a suffix, before its first byte.
pub fn suffix_grammar() -> SuffixGrammar
    ensures { Same (⟦<SuffixGrammar as Grammar>⟧.spells result) IsSuffix }
{
    SuffixGrammar {
        left: suffix_parts(),
    }
}

impl Grammar for SuffixGrammar {
    ghost spells = { λ suffix. ⟦<SuffixParts as Grammar>⟧.spells suffix.left };

    ghost completes = { λ suffix. ⟦<SuffixParts as Grammar>⟧.completes suffix.left };

    fn step(self, byte: u8) -> Option<SuffixGrammar> {
        match self.left.step(byte) {
            Some(left) => Some(SuffixGrammar { left }),
            None => None,
        }
    }

    fn is_whole(self) -> bool {
        self.left.is_whole()
    }
}

/// The sequence number that a suffix gives.
pub fn seq_of(suffix: &[u8]) -> Option<u64>
    requires { IsSuffix suffix.now }
    ensures text { suffix_text result ≡ suffix.now }
    ensures limit { IfSome result (λ seq. seq ≤ MAX_SEQ) }
{
    if suffix.is_empty() {
        return None;
    }
    Some(number_of(&suffix[7..suffix.len() - 1]))
}

/// The text of the suffix of a sequence number.
fn text_of_seq(alloc: Global, seq: u64) -> Result<Blob, NoMemory>
    ensures { IfOk result (λ text. text ≡ suffix_text (Some seq)) }
{
    let number = seq.to_string(alloc)?;
    let mut text = Blob::copy_of(alloc, b"_SeqId_")?;
    text.add(number.as_bytes())?;
    text.add(b"_")?;
    Ok(text)
}

/// Adds the suffix of a sequence number, or of none. Without memory for it nothing changes.
pub fn add_suffix(text: &mut Blob, seq: Option<u64>) -> Result<(), NoMemory>
    ensures ok { OnOk result (text.new ≡ text.old ++ suffix_text seq) }
    ensures err { OnErr result (text.new ≡ text.old) }
{
    match seq {
        None => Ok(()),
        Some(seq) => {
            let suffix = text_of_seq(text.allocator(), seq)?;
            text.add(suffix.as_slice())
        }
    }
}
