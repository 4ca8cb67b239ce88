//! Encoded names of regions.

ghost use Rattle.std.specs.Prelude.{◌≡◌, ◌++◌, IfOk, IfErr, OnOk, OnErr};
ghost use Rattle.hb_grammar.specs.Grammar.{IsFault, Same};
ghost use Rattle.hb_grammar.specs.Run.{IsExactly};
ghost use Rattle.hb_names.specs.NameError.{IsRefusal};
ghost use Rattle.hb_names.specs.Encoded.{IsEncoded};

use crate::error::{BadName, NameError};
use hb_grammar::{Class, Exactly, scan};
use hb_wire::{Blob, Copied, NoMemory};
use std::alloc::Global;
use std::marker::Model;

/// The encoded name of a region, by which its directory is named: 32 lower-case hexadecimal digits.
/// Names are ordered as their bytes.
#[derive(Debug, Drop, PartialEq, Eq, PartialOrd, Ord)]
pub struct Encoded {
    text: Blob,
}

impl Model for Encoded {
    ghost use Rattle.std.specs.Prelude.{List, ℕ};
    ghost use Rattle.hb_names.specs.Encoded.{IsEncoded};

    ghost Value = { List ℕ };

    ghost view = { λ name. name.text };

    ghost invariant = { λ name. IsEncoded name.text };

    ghost inverse = { λ text. record { text = text } };
}

/// The grammar of an encoded name, before its first byte.
pub fn encoded_grammar() -> Exactly
    ensures { Same (IsExactly result.class result.count) IsEncoded }
{
    Exactly {
        class: Class::LowerHex,
        count: 32,
    }
}

impl Encoded {
    /// The name of 32 digits. It takes no memory.
    pub fn of_digits(digits: Vec<u8>) -> Encoded
        requires { IsEncoded digits.items }
        ensures { result ≡ digits.items }
    {
        Encoded {
            text: Blob::from_vec(digits),
        }
    }

    /// The name that the bytes are: the input itself. It takes no memory.
    pub fn parse(bytes: &[u8]) -> Result<&[u8], BadName>
        ensures same { IfOk result (λ name. name.now ≡ bytes.now) }
        ensures found { IfOk result (λ _. IsEncoded bytes.now) }
        ensures fault { IfErr result (λ bad. IsFault IsEncoded bytes.now bad.0) }
    {
        match scan(encoded_grammar(), bytes) {
            Ok(()) => Ok(bytes),
            Err(fault) => Err(BadName(fault.0)),
        }
    }

    /// The name that the bytes are, with a copy of them.
    pub fn read(alloc: Global, bytes: &[u8]) -> Result<Encoded, NameError>
        ensures same { IfOk result (λ name. name ≡ bytes.now) }
        ensures found { IfOk result (λ _. IsEncoded bytes.now) }
        ensures refused { IfErr result (IsRefusal IsEncoded bytes.now) }
    {
        let name = Encoded::parse(bytes)?;
        Ok(Encoded {
            text: Blob::copy_of(alloc, name)?,
        })
    }

    /// The name of bytes that are known to be one, with a copy of them.
    pub fn copy_of(alloc: Global, bytes: &[u8]) -> Result<Encoded, NoMemory>
        requires { IsEncoded bytes.now }
        ensures { IfOk result (λ name. name ≡ bytes.now) }
    {
        Ok(Encoded {
            text: Blob::copy_of(alloc, bytes)?,
        })
    }

    /// Adds the name's bytes at the end of `out`. Without memory for them nothing changes.
    pub fn write(&self, out: &mut Blob) -> Result<(), NoMemory>
        ensures ok { OnOk result (out.new ≡ out.old ++ self.now) }
        ensures err { OnErr result (out.new ≡ out.old) }
    {
        out.add(self.text.as_slice())
    }

    /// The name's bytes.
    pub fn as_slice(&self) -> &[u8]
        ensures bytes { result.now ≡ self.now }
        ensures valid { IsEncoded self.now }
    {
        self.text.as_slice()
    }
}

impl Copied for Encoded {
    fn copy(&self) -> Result<Encoded, NoMemory> {
        Ok(Encoded {
            text: self.text.copy()?,
        })
    }
}
