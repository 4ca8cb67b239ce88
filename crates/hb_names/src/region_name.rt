//! Names of regions, and how they are encoded.

ghost use Rattle.std.specs.Prelude.{◌≡◌, IfOk, length};
ghost use Rattle.hb_grammar.specs.declared.class.Class.TheVariants.{LowerHex};
ghost use Rattle.hb_grammar.specs.Class.{AllIn};
ghost use Rattle.hb_names.specs.RegionName.{encoded_of};
ghost use Rattle.hex.specs.Hex.{encode_lower};

use crate::encoded::Encoded;
use crate::table_name::TableName;
use hb_wire::{Blob, Copied, NoMemory};
use md5::{Digest, Md5};
use std::alloc::Global;

/// The name of a region: its table, the row at which it starts (no bytes where it has no lower bound),
/// and its region id.
#[derive(Debug, Drop, PartialEq, Eq)]
pub struct RegionName {
    pub table: TableName,
    pub start: Blob,
    pub id: u64,
}

impl Copied for RegionName {
    fn copy(&self) -> Result<RegionName, NoMemory> {
        Ok(RegionName {
            table: self.table.copy()?,
            start: self.start.copy()?,
            id: self.id,
        })
    }
}

/// The encoded name of a region: the MD5 (RFC 1321) of `<table>,<start key>,<region id>`, the id in
/// decimal, as 32 lower-case hexadecimal digits.
pub fn encode_region(alloc: Global, name: &RegionName) -> Result<Encoded, NoMemory>
    ensures { IfOk result (λ encoded. encoded ≡ encoded_of name.now) }
{
    let id = name.id.to_string(alloc)?;
    let mut hasher = Md5::new();
    hasher.update(name.table.as_slice());
    hasher.update(b",");
    hasher.update(name.start.as_slice());
    hasher.update(b",");
    hasher.update(id.as_bytes());
    encode_digest(alloc, &hasher.finalize())
}

/// The digits of a digest.
fn encode_digest(alloc: Global, digest: &[u8; 16]) -> Result<Encoded, NoMemory>
    ensures { IfOk result (λ encoded. encoded ≡ encode_lower digest.now) }
{
    let text = hex::encode(alloc, digest)?;
    Ok(Encoded::of_digits(text.into_bytes()))
}
