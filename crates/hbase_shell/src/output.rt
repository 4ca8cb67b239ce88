//! What a run writes.
ghost use Rattle.std.specs.Prelude.{◌≡◌, ◌≤◌, OnOk, OnErr};
ghost use Rattle.hb_causes.specs.Faults.{Rose};
ghost use Rattle.hbase_shell.specs.Output.{Writes, WritesFront};

use hb_causes::{Failed, Sink};

/// Writes a text, piece by piece, and stops at the first fault.
pub(crate) fn write_text<O: Sink>(output: &mut O, text: &[u8]) -> Result<(), Failed>
    ensures ok { OnOk result (Writes (O.written output.old) (O.written output.new) text.now) }
    ensures err { OnErr result (WritesFront (O.written output.old) (O.written output.new) text.now) }
    ensures rose { OnErr result (Rose (O.faults output.old) (O.faults output.new)) }
    ensures later { O.faults output.old ≤ O.faults output.new }
{
    let mut done = 0;
    while done < text.len() {
        done += output.write(&text[done..])?;
    }
    Ok(())
}
