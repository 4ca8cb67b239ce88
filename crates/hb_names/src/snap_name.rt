//! Names of snapshots.

ghost use Rattle.std.specs.Prelude.{◌≡◌, ◌++◌, IfOk, IfErr, OnOk, OnErr};
ghost use Rattle.hb_grammar.specs.Grammar.{IsFault};
ghost use Rattle.hb_names.specs.NameError.{IsRefusal};
ghost use Rattle.hb_names.specs.SnapName.{IsSnapName};

use crate::error::{BadName, NameError};
use crate::qualifier::qualifier_grammar;
use hb_grammar::scan;
use hb_wire::{Blob, Copied, NoMemory};
use std::alloc::Global;
use std::marker::Model;

/// The name of a snapshot: 1 to 100 letters, digits and `_ - .`, of which the first is neither `-` nor
/// `.` (HBase Reference Guide, Snapshots). Names are ordered as their bytes.
#[derive(Debug, Drop, PartialEq, Eq, PartialOrd, Ord)]
pub struct SnapName {
    text: Blob,
}

impl Model for SnapName {
    ghost use Rattle.std.specs.Prelude.{List, ℕ};
    ghost use Rattle.hb_names.specs.SnapName.{IsSnapName};

    ghost Value = { List ℕ };

    ghost view = { λ name. name.text };

    ghost invariant = { λ name. IsSnapName name.text };

    ghost inverse = { λ text. record { text = text } };
}

impl SnapName {
    /// The name that the bytes are: the input itself. It takes no memory.
    pub fn parse(bytes: &[u8]) -> Result<&[u8], BadName>
        ensures same { IfOk result (λ name. name.now ≡ bytes.now) }
        ensures found { IfOk result (λ _. IsSnapName bytes.now) }
        ensures fault { IfErr result (λ bad. IsFault IsSnapName bytes.now bad.0) }
    {
        match scan(qualifier_grammar(), bytes) {
            Ok(()) => Ok(bytes),
            Err(fault) => Err(BadName(fault.0)),
        }
    }

    /// The name that the bytes are, with a copy of them.
    pub fn read(alloc: Global, bytes: &[u8]) -> Result<SnapName, NameError>
        ensures same { IfOk result (λ name. name ≡ bytes.now) }
        ensures found { IfOk result (λ _. IsSnapName bytes.now) }
        ensures refused { IfErr result (IsRefusal IsSnapName bytes.now) }
    {
        let name = SnapName::parse(bytes)?;
        Ok(SnapName {
            text: Blob::copy_of(alloc, name)?,
        })
    }

    /// Adds the name's bytes at the end of `out`. Without memory for them nothing changes.
    pub fn write(&self, out: &mut Blob) -> Result<(), NoMemory>
        ensures ok { OnOk result (out.new ≡ out.old ++ self.now) }
        ensures err { OnErr result (out.new ≡ out.old) }
    {
        out.add(self.text.as_slice())
    }

    /// The name's bytes.
    pub fn as_slice(&self) -> &[u8]
        ensures bytes { result.now ≡ self.now }
        ensures valid { IsSnapName self.now }
    {
        self.text.as_slice()
    }
}

impl Copied for SnapName {
    fn copy(&self) -> Result<SnapName, NoMemory> {
        Ok(SnapName {
            text: self.text.copy()?,
        })
    }
}

#[cfg(test)]
mod tests {
    use super::*;

    #[test]
    fn the_place_of_a_fault(rt: HostRuntime) {
        let long = [b'a'; 101];
        let table: [(&[u8], Option<usize>); 9] = [
            (b"t", None),
            (b"_", None),
            (b"9a.-_Z", None),
            (&long[..100], None),
            (b"", Some(0)),
            (b"-t", Some(0)),
            (b".t", Some(0)),
            (b"a=b", Some(1)),
            (&long, Some(100)),
        ];
        for (text, fault) in table {
            let found = match SnapName::parse(text) {
                Ok(_) => None,
                Err(bad) => Some(bad.0),
            };
            assert_eq!(rt; found, fault, "at {} bytes", text.len());
        }
    }
}
