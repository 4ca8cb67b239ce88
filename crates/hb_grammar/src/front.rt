//! The string of a grammar that a text begins with, and the text behind it.

ghost use Rattle.std.specs.Prelude.{◌≡◌, ◌++◌, ◌∷◌, IfOk, IfErr};
ghost use Rattle.hb_grammar.specs.Marked.{Avoids, Marked};
ghost use Rattle.hb_grammar.specs.Front.{IsAlone, IsFrontFault};

use crate::grammar::{Closed, Fault, Grammar};
use crate::until::Until;

/// The string of a closed grammar that the bytes begin with, and the bytes behind it. It takes no memory.
pub fn split_front<'a, G: Closed>(
    grammar: G,
    bytes: &'a [u8],
) -> Result<(&'a [u8], &'a [u8]), Fault>
    ensures whole { IfOk result (λ parts. bytes.now ≡ parts.0.now ++ parts.1.now) }
    ensures front { IfOk result (λ parts. G.spells grammar parts.0.now) }
    ensures alone { IfOk result (λ parts. IsAlone (G.spells grammar) parts.0.now) }
    ensures fault { IfErr result (λ fault. IsFrontFault (G.spells grammar) bytes.now fault.0) }
{
    let mut left = grammar;
    for i in 0..bytes.len() {
        if left.is_whole() {
            return Ok(bytes.split_at(i));
        }
        match left.step(bytes[i]) {
            Some(next) => left = next,
            None => return Err(Fault(i)),
        }
    }
    if left.is_whole() {
        Ok(bytes.split_at(bytes.len()))
    } else {
        Err(Fault(bytes.len()))
    }
}

/// The string of a grammar that the bytes begin with, up to a mark, and the bytes behind the mark.
pub fn split_marked<'a, G: Grammar>(
    grammar: G,
    mark: u8,
    bytes: &'a [u8],
) -> Result<(&'a [u8], &'a [u8]), Fault>
    requires { Avoids (G.spells grammar) mark }
    ensures whole { IfOk result (λ parts. bytes.now ≡ parts.0.now ++ mark ∷ parts.1.now) }
    ensures front { IfOk result (λ parts. G.spells grammar parts.0.now) }
    ensures fault { IfErr result (λ fault. IsFrontFault (Marked (G.spells grammar) mark) bytes.now fault.0) }
{
    let (marked, rest) = split_front(Until::new(grammar, mark), bytes)?;
    Ok((&marked[..marked.len() - 1], rest))
}
