//! Block lines, each of which begins a session.
ghost use Rattle.std.specs.Prelude.{◌≡◌, ◌≤◌, ◌⊎◌, ℕ, List, IfOk, IfErr, count_by, drop, length};
ghost use Rattle.hb_grammar.specs.Grammar.{IsFault, Same};
ghost use Rattle.shell_script.specs.Block.{IsBlock, block_name, is_block};

use crate::lines::NumberedLine;
use hb_grammar::{Class, Fault, Grammar, Literal, Run, Then, scan};

type BlockGrammar = Then<Literal, Run>;

/// `=== ` and a name of 1 to 32 letters, digits or `_`.
fn block_grammar() -> BlockGrammar
    ensures { Same (⟦<BlockGrammar as Grammar>⟧.spells result) IsBlock }
{
    let name = Run::new(Class::NameStart, 1, 32);
    Then::new(Literal { text: b"=== " }, name)
}

/// Whether a line is a block line, and else how far it could have been one.
pub(crate) fn check_block(line: &[u8]) -> Result<(), Fault>
    ensures found { IfOk result (λ _. IsBlock line.now) }
    ensures fault { IfErr result (λ fault. IsFault IsBlock line.now fault.0) }
{
    let grammar = block_grammar();
    match scan(grammar, line) {
        Ok(()) => Ok(()),
        Err(fault) => Err(fault),
    }
}

/// Whether a line is a block line.
pub(crate) fn is_block(line: &[u8]) -> bool
    ensures { result ≡ is_block line.now }
{
    match check_block(line) {
        Ok(()) => true,
        Err(_) => false,
    }
}

/// The name of a block.
pub(crate) fn block_name(line: &[u8]) -> &[u8]
    requires { IsBlock line.now }
    ensures { result.now ≡ block_name line.now }
{
    &line[4..]
}

/// How many of the lines are block lines.
pub(crate) fn count_blocks(lines: &[NumberedLine]) -> usize
    ensures { result ≡ count_by (λ (line : ℕ × List ℕ). is_block line.1) lines.now }
{
    let mut count = 0;
    for line in lines {
        if is_block(line.text()) {
            count += 1;
        }
    }
    count
}
