//! Tables, by their families.

use hb_names::{FamilyName, TableName};
use hb_wire::{Copied, Items, NoMemory};

/// A table: its name, and its families, each with the number of versions of a cell that a read shows.
/// Source: HBase `TableDescriptor`, `ColumnFamilyDescriptor` (`VERSIONS`).
#[derive(Debug, Drop, PartialEq, Eq)]
pub struct TableSchema {
    pub table: TableName,
    pub families: Items<(FamilyName, u32)>,
}

impl Copied for TableSchema {
    fn copy(&self) -> Result<TableSchema, NoMemory> {
        Ok(TableSchema {
            table: self.table.copy()?,
            families: self.families.copy()?,
        })
    }
}
