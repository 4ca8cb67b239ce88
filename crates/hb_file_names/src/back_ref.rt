//! Back references.

ghost use Rattle.std.specs.Prelude.{◌≡◌, ◌++◌, IfOk, IfErr, OnOk, OnErr};
ghost use Rattle.hb_grammar.specs.Grammar.{IsFault};
ghost use Rattle.hb_names.specs.NameError.{IsRefusal};
ghost use Rattle.hb_names.specs.Encoded.{IsEncoded};
ghost use Rattle.hb_names.specs.TableName.{IsTableName};
ghost use Rattle.hb_file_names.specs.BackRef.{IsBackRef, back_text};

use crate::back_grammar::back_grammar;
use crate::mark::split_mark;
use hb_grammar::scan;
use hb_names::{BadName, Encoded, NameError, TableName};
use hb_wire::{Blob, Copied, NoMemory};
use std::alloc::Global;

/// A back reference: the region in which a link to a file stands, and its table. It is the name of an
/// empty file beside the linked one, `<encoded region>.<table>` (HBase HFileLink).
#[derive(Debug, Drop, PartialEq, Eq, PartialOrd, Ord)]
pub struct BackRef {
    pub region: Encoded,
    pub table: TableName,
}

/// The parts of a back reference, with the bytes of the input.
#[derive(Clone, Copy, Debug)]
pub struct BackParts<'a> {
    pub region: &'a [u8],
    pub table: &'a [u8],
}

/// The parts of a back reference.
fn parts_of_back(bytes: &[u8]) -> BackParts<'_>
    requires { IsBackRef bytes.now }
    ensures text { back_text result.region.now result.table.now ≡ bytes.now }
    ensures region { IsEncoded result.region.now }
    ensures table { IsTableName result.table.now }
{
    let (region, table) = split_mark(bytes, 32);
    BackParts { region, table }
}

impl BackRef {
    /// The parts of the name that the bytes are. It takes no memory.
    pub fn parse(bytes: &[u8]) -> Result<BackParts<'_>, BadName>
        ensures text { IfOk result (λ parts. back_text parts.region.now parts.table.now ≡ bytes.now) }
        ensures region { IfOk result (λ parts. IsEncoded parts.region.now) }
        ensures table { IfOk result (λ parts. IsTableName parts.table.now) }
        ensures found { IfOk result (λ _. IsBackRef bytes.now) }
        ensures fault { IfErr result (λ bad. IsFault IsBackRef bytes.now bad.0) }
    {
        match scan(back_grammar(), bytes) {
            Ok(()) => Ok(parts_of_back(bytes)),
            Err(fault) => Err(BadName(fault.0)),
        }
    }

    /// The back reference whose name the bytes are, with a copy of its parts.
    pub fn read(alloc: Global, bytes: &[u8]) -> Result<BackRef, NameError>
        ensures same { IfOk result (λ back. back_text back.region back.table ≡ bytes.now) }
        ensures found { IfOk result (λ _. IsBackRef bytes.now) }
        ensures refused { IfErr result (IsRefusal IsBackRef bytes.now) }
    {
        match scan(back_grammar(), bytes) {
            Ok(()) => {
                let (region, table) = split_mark(bytes, 32);
                Ok(BackRef {
                    region: Encoded::copy_of(alloc, region)?,
                    table: TableName::copy_of(alloc, table)?,
                })
            }
            Err(fault) => Err(NameError::Bad(BadName(fault.0))),
        }
    }

    /// Adds the back reference's name at the end of `out`. Without memory for it nothing changes.
    pub fn write(&self, out: &mut Blob) -> Result<(), NoMemory>
        ensures ok { OnOk result (out.new ≡ out.old ++ back_text self.now.region self.now.table) }
        ensures err { OnErr result (out.new ≡ out.old) }
    {
        let mut text = Blob::copy_of(out.allocator(), self.region.as_slice())?;
        text.add(b".")?;
        text.add(self.table.as_slice())?;
        out.add(text.as_slice())
    }
}

impl Copied for BackRef {
    fn copy(&self) -> Result<BackRef, NoMemory> {
        Ok(BackRef {
            region: self.region.copy()?,
            table: self.table.copy()?,
        })
    }
}
