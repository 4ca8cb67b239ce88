//! What a grammar is, and whether bytes are in it.

ghost use Rattle.std.specs.Prelude.{◌≡◌, ℕ, List, [], IfSome, IfNone, IfOk, IfErr, IsTrue, ◌↔◌};
ghost use Rattle.hb_grammar.specs.Grammar.{IsFault, Follows, Refuses, IsLive};

/// The length of the longest prefix of the input that some string of the grammar begins with.
#[derive(Clone, Copy, Debug, PartialEq, Eq)]
pub struct Fault(pub usize);

/// A grammar of byte strings. Each has a string, so that whatever was read can be completed.
pub trait Grammar: Copy {
    ghost spells: { Self → List ℕ → Type 0 };

    ghost completes: { (grammar : Self) → IsLive (spells grammar) };

    /// What is left of the grammar after a byte, or none where no string begins with it.
    fn step(self, byte: u8) -> Option<Self>
        ensures goes_on { IfSome result (λ next. Follows (spells self) byte (spells next)) }
        ensures stops { IfNone result (Refuses (spells self) byte) };

    /// Whether the grammar has the string of no bytes.
    fn is_whole(self) -> bool
        ensures { IsTrue result ↔ spells self [] };
}

/// A grammar none of whose strings begins another.
pub trait Closed: Grammar {
    ghost closed: { (grammar : Self) → Self.spells grammar [] → (byte : ℕ) → Refuses (Self.spells grammar) byte };
}

/// Whether the bytes are a string of the grammar, and else how far they could have been one.
pub fn scan<G: Grammar>(grammar: G, bytes: &[u8]) -> Result<(), Fault>
    ensures found { IfOk result (λ _. G.spells grammar bytes.now) }
    ensures fault { IfErr result (λ fault. IsFault (G.spells grammar) bytes.now fault.0) }
{
    let mut left = grammar;
    for i in 0..bytes.len() {
        match left.step(bytes[i]) {
            Some(next) => left = next,
            None => return Err(Fault(i)),
        }
    }
    if left.is_whole() {
        Ok(())
    } else {
        Err(Fault(bytes.len()))
    }
}
