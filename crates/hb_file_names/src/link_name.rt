//! Names of links.

ghost use Rattle.std.specs.Prelude.{◌≡◌, ◌++◌, IfOk, IfErr, OnOk, OnErr};
ghost use Rattle.hb_grammar.specs.Grammar.{IsFault};
ghost use Rattle.hb_names.specs.NameError.{IsRefusal};
ghost use Rattle.hb_file_names.specs.FileParts.{file_text, HasSeqInLimit};
ghost use Rattle.hb_file_names.specs.LinkName.{IsLinkName};
ghost use Rattle.hb_file_names.specs.LinkParts.{link_text};
ghost use Rattle.hb_names.specs.Encoded.{IsEncoded};
ghost use Rattle.hb_names.specs.TableName.{IsTableName};

use crate::file_name::{FileName, parts_of};
use crate::file_parts::FileParts;
use crate::link_grammar::link_grammar;
use crate::mark::{mark_at, split_mark};
use hb_grammar::scan;
use hb_names::{BadName, Encoded, NameError, TableName};
use hb_wire::{Blob, Copied, NoMemory};
use std::alloc::Global;
use std::marker::Model;

/// The name of a link to a store file: `<table>=<encoded region>-<file name>` (HBase HFileLink). Names are
/// ordered as their bytes.
#[derive(Debug, Drop, PartialEq, Eq, PartialOrd, Ord)]
pub struct LinkName {
    text: Blob,
}

impl Model for LinkName {
    ghost use Rattle.std.specs.Prelude.{List, ℕ};
    ghost use Rattle.hb_file_names.specs.LinkName.{IsLinkName};

    ghost Value = { List ℕ };

    ghost view = { λ name. name.text };

    ghost invariant = { λ name. IsLinkName name.text };

    ghost inverse = { λ text. record { text = text } };
}

/// The parts of a link's name, with the bytes of the input.
#[derive(Clone, Copy, Debug)]
pub struct LinkParts<'a> {
    pub table: &'a [u8],
    pub region: &'a [u8],
    pub file: FileParts,
}

/// The parts of a link's name.
fn parts_of_link(bytes: &[u8]) -> LinkParts<'_>
    requires { IsLinkName bytes.now }
    ensures text { link_text result.table.now result.region.now (file_text result.file) ≡ bytes.now }
    ensures limit { HasSeqInLimit result.file }
    ensures table { IsTableName result.table.now }
    ensures region { IsEncoded result.region.now }
{
    let (table, rest) = split_mark(bytes, mark_at(bytes, b'='));
    let (region, file) = split_mark(rest, 32);
    LinkParts {
        table,
        region,
        file: parts_of(file),
    }
}

/// The text of a link's name.
fn text_of(alloc: Global, table: &[u8], region: &[u8], file: &[u8]) -> Result<Blob, NoMemory>
    ensures { IfOk result (λ text. text ≡ link_text table.now region.now file.now) }
{
    let mut text = Blob::copy_of(alloc, table)?;
    text.add(b"=")?;
    text.add(region)?;
    text.add(b"-")?;
    text.add(file)?;
    Ok(text)
}

impl LinkName {
    /// The parts of the name that the bytes are. It takes no memory.
    pub fn parse(bytes: &[u8]) -> Result<LinkParts<'_>, BadName>
        ensures text { IfOk result (λ parts. link_text parts.table.now parts.region.now (file_text parts.file) ≡ bytes.now) }
        ensures limit { IfOk result (λ parts. HasSeqInLimit parts.file) }
        ensures table { IfOk result (λ parts. IsTableName parts.table.now) }
        ensures region { IfOk result (λ parts. IsEncoded parts.region.now) }
        ensures found { IfOk result (λ _. IsLinkName bytes.now) }
        ensures fault { IfErr result (λ bad. IsFault IsLinkName bytes.now bad.0) }
    {
        match scan(link_grammar(), bytes) {
            Ok(()) => Ok(parts_of_link(bytes)),
            Err(fault) => Err(BadName(fault.0)),
        }
    }

    /// The name that the bytes are, with a copy of them.
    pub fn read(alloc: Global, bytes: &[u8]) -> Result<LinkName, NameError>
        ensures same { IfOk result (λ name. name ≡ bytes.now) }
        ensures found { IfOk result (λ _. IsLinkName bytes.now) }
        ensures refused { IfErr result (IsRefusal IsLinkName bytes.now) }
    {
        match scan(link_grammar(), bytes) {
            Ok(()) => Ok(LinkName {
                text: Blob::copy_of(alloc, bytes)?,
            }),
            Err(fault) => Err(NameError::Bad(BadName(fault.0))),
        }
    }

    /// The name of a link to a region's file.
    pub fn new(
        alloc: Global,
        table: &TableName,
        region: &Encoded,
        file: &FileName,
    ) -> Result<LinkName, NoMemory>
        ensures { IfOk result (λ name. name ≡ link_text table.now region.now file.now) }
    {
        let text = text_of(alloc, table.as_slice(), region.as_slice(), file.as_slice())?;
        Ok(LinkName { text })
    }

    /// The name's parts, with its bytes.
    pub fn parts(&self) -> LinkParts<'_>
        ensures text { link_text result.table.now result.region.now (file_text result.file) ≡ self.now }
        ensures limit { HasSeqInLimit result.file }
        ensures table { IsTableName result.table.now }
        ensures region { IsEncoded result.region.now }
    {
        parts_of_link(self.text.as_slice())
    }

    /// Adds the name's bytes at the end of `out`. Without memory for them nothing changes.
    pub fn write(&self, out: &mut Blob) -> Result<(), NoMemory>
        ensures ok { OnOk result (out.new ≡ out.old ++ self.now) }
        ensures err { OnErr result (out.new ≡ out.old) }
    {
        out.add(self.text.as_slice())
    }

    /// The name's bytes.
    pub fn as_slice(&self) -> &[u8]
        ensures bytes { result.now ≡ self.now }
        ensures valid { IsLinkName self.now }
    {
        self.text.as_slice()
    }
}

impl Copied for LinkName {
    fn copy(&self) -> Result<LinkName, NoMemory> {
        Ok(LinkName {
            text: self.text.copy()?,
        })
    }
}
