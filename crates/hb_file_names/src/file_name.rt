//! Names of store files.

ghost use Rattle.std.specs.Prelude.{◌≡◌, ◌++◌, IfOk, IfErr, OnOk, OnErr};
ghost use Rattle.hb_grammar.specs.Grammar.{IsFault};
ghost use Rattle.hb_names.specs.NameError.{IsRefusal};
ghost use Rattle.hb_file_names.specs.FileName.{IsFileName};
ghost use Rattle.hb_file_names.specs.FileParts.{file_text, HasSeqInLimit};

use crate::digits::{digits_of_number, number_of_digits};
use crate::file_grammar::file_grammar;
use crate::file_parts::FileParts;
use crate::suffix::{add_suffix, seq_of};
use hb_grammar::scan;
use hb_names::{BadName, NameError};
use hb_wire::{Blob, Copied, NoMemory};
use std::alloc::Global;
use std::marker::Model;

/// The name of a store file: 32 lower-case hexadecimal digits, 16 of the epoch and 16 of the counter, and
/// then nothing or `_SeqId_<n>_`, where n is a decimal number up to 9,223,372,036,854,775,807, the sequence
/// number of the file's cells. Names are ordered as their bytes.
#[derive(Debug, Drop, PartialEq, Eq, PartialOrd, Ord)]
pub struct FileName {
    text: Blob,
}

impl Model for FileName {
    ghost use Rattle.std.specs.Prelude.{List, ℕ};
    ghost use Rattle.hb_file_names.specs.FileName.{IsFileName};

    ghost Value = { List ℕ };

    ghost view = { λ name. name.text };

    ghost invariant = { λ name. IsFileName name.text };

    ghost inverse = { λ text. record { text = text } };
}

/// The parts of a name.
pub(crate) fn parts_of(bytes: &[u8]) -> FileParts
    requires { IsFileName bytes.now }
    ensures text { file_text result ≡ bytes.now }
    ensures limit { HasSeqInLimit result }
{
    let (epoch, rest) = bytes.split_at(16);
    let (counter, suffix) = rest.split_at(16);
    FileParts {
        epoch: number_of_digits(epoch),
        counter: number_of_digits(counter),
        seq: seq_of(suffix),
    }
}

/// The text of the parts of a name.
fn text_of(alloc: Global, parts: FileParts) -> Result<Blob, NoMemory>
    ensures { IfOk result (λ text. text ≡ file_text parts) }
{
    let mut text = Blob::copy_of(alloc, &digits_of_number(parts.epoch))?;
    text.add(&digits_of_number(parts.counter))?;
    add_suffix(&mut text, parts.seq)?;
    Ok(text)
}

impl FileName {
    /// The parts of the name that the bytes are. It takes no memory.
    pub fn parse(bytes: &[u8]) -> Result<FileParts, BadName>
        ensures text { IfOk result (λ parts. file_text parts ≡ bytes.now) }
        ensures limit { IfOk result HasSeqInLimit }
        ensures found { IfOk result (λ _. IsFileName bytes.now) }
        ensures fault { IfErr result (λ bad. IsFault IsFileName bytes.now bad.0) }
    {
        match scan(file_grammar(), bytes) {
            Ok(()) => Ok(parts_of(bytes)),
            Err(fault) => Err(BadName(fault.0)),
        }
    }

    /// The name that the bytes are, with a copy of them.
    pub fn read(alloc: Global, bytes: &[u8]) -> Result<FileName, NameError>
        ensures same { IfOk result (λ name. name ≡ bytes.now) }
        ensures found { IfOk result (λ _. IsFileName bytes.now) }
        ensures refused { IfErr result (IsRefusal IsFileName bytes.now) }
    {
        match scan(file_grammar(), bytes) {
            Ok(()) => Ok(FileName {
                text: Blob::copy_of(alloc, bytes)?,
            }),
            Err(fault) => Err(NameError::Bad(BadName(fault.0))),
        }
    }

    /// The name of these parts.
    pub fn new(alloc: Global, parts: FileParts) -> Result<FileName, NoMemory>
        requires { HasSeqInLimit parts }
        ensures { IfOk result (λ name. name ≡ file_text parts) }
    {
        let text = text_of(alloc, parts)?;
        Ok(FileName { text })
    }

    /// The name's parts.
    pub fn parts(&self) -> FileParts
        ensures text { file_text result ≡ self.now }
        ensures limit { HasSeqInLimit result }
    {
        parts_of(self.text.as_slice())
    }

    /// Adds the name's bytes at the end of `out`. Without memory for them nothing changes.
    pub fn write(&self, out: &mut Blob) -> Result<(), NoMemory>
        ensures ok { OnOk result (out.new ≡ out.old ++ self.now) }
        ensures err { OnErr result (out.new ≡ out.old) }
    {
        out.add(self.text.as_slice())
    }

    /// The name's bytes.
    pub fn as_slice(&self) -> &[u8]
        ensures bytes { result.now ≡ self.now }
        ensures valid { IsFileName self.now }
    {
        self.text.as_slice()
    }
}

impl Copied for FileName {
    fn copy(&self) -> Result<FileName, NoMemory> {
        Ok(FileName {
            text: self.text.copy()?,
        })
    }
}
