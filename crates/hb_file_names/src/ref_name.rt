//! Names of references.

ghost use Rattle.std.specs.Prelude.{◌≡◌, ◌++◌, IfOk, IfErr, OnOk, OnErr};
ghost use Rattle.hb_grammar.specs.Grammar.{IsFault};
ghost use Rattle.hb_names.specs.NameError.{IsRefusal};
ghost use Rattle.hb_file_names.specs.FileName.{IsFileName};
ghost use Rattle.hb_file_names.specs.LinkName.{IsLinkName};
ghost use Rattle.hb_file_names.specs.RefName.{IsRefName, ref_text};
ghost use Rattle.hb_grammar.specs.Either.{EitherOf};
ghost use Rattle.hb_names.specs.Encoded.{IsEncoded};

use crate::file_name::FileName;
use crate::link_name::LinkName;
use crate::mark::split_mark;
use crate::ref_grammar::reference_grammar;
use hb_grammar::scan;
use hb_names::{BadName, Encoded, NameError};
use hb_wire::{Blob, Copied, NoMemory};
use std::alloc::Global;
use std::marker::Model;

/// The name of a reference to one half of a file, after a split: `<file name>.<encoded region>` or
/// `<link name>.<encoded region>`, with the region that was split (HBase Reference). Names are ordered as
/// their bytes.
#[derive(Debug, Drop, PartialEq, Eq, PartialOrd, Ord)]
pub struct RefName {
    text: Blob,
}

impl Model for RefName {
    ghost use Rattle.std.specs.Prelude.{List, ℕ};
    ghost use Rattle.hb_file_names.specs.RefName.{IsRefName};

    ghost Value = { List ℕ };

    ghost view = { λ name. name.text };

    ghost invariant = { λ name. IsRefName name.text };

    ghost inverse = { λ text. record { text = text } };
}

/// The parts of a reference's name, with the bytes of the input.
#[derive(Clone, Copy, Debug)]
pub struct RefParts<'a> {
    pub name: &'a [u8],
    pub parent: &'a [u8],
}

/// The parts of a reference's name.
fn parts_of_reference(bytes: &[u8]) -> RefParts<'_>
    requires { IsRefName bytes.now }
    ensures text { ref_text result.name.now result.parent.now ≡ bytes.now }
    ensures name { EitherOf IsFileName IsLinkName result.name.now }
    ensures parent { IsEncoded result.parent.now }
{
    let (name, parent) = split_mark(bytes, bytes.len() - 33);
    RefParts { name, parent }
}

/// The text of a reference's name.
fn text_of(alloc: Global, name: &[u8], parent: &[u8]) -> Result<Blob, NoMemory>
    ensures { IfOk result (λ text. text ≡ ref_text name.now parent.now) }
{
    let mut text = Blob::copy_of(alloc, name)?;
    text.add(b".")?;
    text.add(parent)?;
    Ok(text)
}

impl RefName {
    /// The parts of the name that the bytes are. It takes no memory.
    pub fn parse(bytes: &[u8]) -> Result<RefParts<'_>, BadName>
        ensures text { IfOk result (λ parts. ref_text parts.name.now parts.parent.now ≡ bytes.now) }
        ensures name { IfOk result (λ parts. EitherOf IsFileName IsLinkName parts.name.now) }
        ensures parent { IfOk result (λ parts. IsEncoded parts.parent.now) }
        ensures found { IfOk result (λ _. IsRefName bytes.now) }
        ensures fault { IfErr result (λ bad. IsFault IsRefName bytes.now bad.0) }
    {
        match scan(reference_grammar(), bytes) {
            Ok(()) => Ok(parts_of_reference(bytes)),
            Err(fault) => Err(BadName(fault.0)),
        }
    }

    /// The name that the bytes are, with a copy of them.
    pub fn read(alloc: Global, bytes: &[u8]) -> Result<RefName, NameError>
        ensures same { IfOk result (λ name. name ≡ bytes.now) }
        ensures found { IfOk result (λ _. IsRefName bytes.now) }
        ensures refused { IfErr result (IsRefusal IsRefName bytes.now) }
    {
        match scan(reference_grammar(), bytes) {
            Ok(()) => Ok(RefName {
                text: Blob::copy_of(alloc, bytes)?,
            }),
            Err(fault) => Err(NameError::Bad(BadName(fault.0))),
        }
    }

    /// The name of a reference to one half of a region's own file.
    pub fn of_file(alloc: Global, file: &FileName, parent: &Encoded) -> Result<RefName, NoMemory>
        ensures { IfOk result (λ name. name ≡ ref_text file.now parent.now) }
    {
        let text = text_of(alloc, file.as_slice(), parent.as_slice())?;
        Ok(RefName { text })
    }

    /// The name of a reference to one half of a link's file.
    pub fn of_link(alloc: Global, link: &LinkName, parent: &Encoded) -> Result<RefName, NoMemory>
        ensures { IfOk result (λ name. name ≡ ref_text link.now parent.now) }
    {
        let text = text_of(alloc, link.as_slice(), parent.as_slice())?;
        Ok(RefName { text })
    }

    /// The name's parts, with its bytes.
    pub fn parts(&self) -> RefParts<'_>
        ensures text { ref_text result.name.now result.parent.now ≡ self.now }
        ensures name { EitherOf IsFileName IsLinkName result.name.now }
        ensures parent { IsEncoded result.parent.now }
    {
        parts_of_reference(self.text.as_slice())
    }

    /// Adds the name's bytes at the end of `out`. Without memory for them nothing changes.
    pub fn write(&self, out: &mut Blob) -> Result<(), NoMemory>
        ensures ok { OnOk result (out.new ≡ out.old ++ self.now) }
        ensures err { OnErr result (out.new ≡ out.old) }
    {
        out.add(self.text.as_slice())
    }

    /// The name's bytes.
    pub fn as_slice(&self) -> &[u8]
        ensures bytes { result.now ≡ self.now }
        ensures valid { IsRefName self.now }
    {
        self.text.as_slice()
    }
}

impl Copied for RefName {
    fn copy(&self) -> Result<RefName, NoMemory> {
        Ok(RefName {
            text: self.text.copy()?,
        })
    }
}
