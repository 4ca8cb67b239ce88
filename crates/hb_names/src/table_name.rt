//! Names of tables.

ghost use Rattle.std.specs.Prelude.{◌≡◌, ◌++◌, IfOk, IfErr, OnOk, OnErr};
ghost use Rattle.hb_grammar.specs.Grammar.{IsFault};
ghost use Rattle.hb_names.specs.NameError.{IsRefusal};
ghost use Rattle.hb_names.specs.TableName.{IsTableName};

use crate::error::{BadName, NameError};
use crate::qualifier::qualifier_grammar;
use hb_grammar::scan;
use hb_wire::{Blob, Copied, NoMemory};
use std::alloc::Global;
use std::marker::Model;

/// The name of a table: 1 to 100 letters, digits and `_ - .`, of which the first is neither `-` nor `.`.
/// Names are ordered as their bytes.
#[derive(Debug, Drop, PartialEq, Eq, PartialOrd, Ord)]
pub struct TableName {
    text: Blob,
}

impl Model for TableName {
    ghost use Rattle.std.specs.Prelude.{List, ℕ};
    ghost use Rattle.hb_names.specs.TableName.{IsTableName};

    ghost Value = { List ℕ };

    ghost view = { λ name. name.text };

    ghost invariant = { λ name. IsTableName name.text };

    ghost inverse = { λ text. record { text = text } };
}

impl TableName {
    /// The name that the bytes are: the input itself. It takes no memory.
    pub fn parse(bytes: &[u8]) -> Result<&[u8], BadName>
        ensures same { IfOk result (λ name. name.now ≡ bytes.now) }
        ensures found { IfOk result (λ _. IsTableName bytes.now) }
        ensures fault { IfErr result (λ bad. IsFault IsTableName bytes.now bad.0) }
    {
        match scan(qualifier_grammar(), bytes) {
            Ok(()) => Ok(bytes),
            Err(fault) => Err(BadName(fault.0)),
        }
    }

    /// The name that the bytes are, with a copy of them.
    pub fn read(alloc: Global, bytes: &[u8]) -> Result<TableName, NameError>
        ensures same { IfOk result (λ name. name ≡ bytes.now) }
        ensures found { IfOk result (λ _. IsTableName bytes.now) }
        ensures refused { IfErr result (IsRefusal IsTableName bytes.now) }
    {
        let name = TableName::parse(bytes)?;
        Ok(TableName {
            text: Blob::copy_of(alloc, name)?,
        })
    }

    /// The name of bytes that are known to be one, with a copy of them.
    pub fn copy_of(alloc: Global, bytes: &[u8]) -> Result<TableName, NoMemory>
        requires { IsTableName bytes.now }
        ensures { IfOk result (λ name. name ≡ bytes.now) }
    {
        Ok(TableName {
            text: Blob::copy_of(alloc, bytes)?,
        })
    }

    /// Adds the name's bytes at the end of `out`. Without memory for them nothing changes.
    pub fn write(&self, out: &mut Blob) -> Result<(), NoMemory>
        ensures ok { OnOk result (out.new ≡ out.old ++ self.now) }
        ensures err { OnErr result (out.new ≡ out.old) }
    {
        out.add(self.text.as_slice())
    }

    /// The name's bytes.
    pub fn as_slice(&self) -> &[u8]
        ensures bytes { result.now ≡ self.now }
        ensures valid { IsTableName self.now }
    {
        self.text.as_slice()
    }
}

impl Copied for TableName {
    fn copy(&self) -> Result<TableName, NoMemory> {
        Ok(TableName {
            text: self.text.copy()?,
        })
    }
}
