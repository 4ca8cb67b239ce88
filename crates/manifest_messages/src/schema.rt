//! Schemas of tables.
ghost use Rattle.std.specs.Prelude.{◌≡◌, ◌^◌, ◌+◌, ◌<◌, length, IfOk, IfErr};
ghost use Rattle.field_rules.specs.Values.{Inner};
ghost use Rattle.field_reader.specs.Faults.{Within};
ghost use Rattle.snapshot_records.specs.Schema.{latest, family_made, IsFamilySchema, schema_made, IsTableSchema};
ghost use Rattle.manifest_messages.specs.Faults.{IsFamilySchemaFault, IsTableSchemaFault};

use crate::attribute::AttributeRule;
use field_reader::{Last, Met, RecordError, Repeated, Rule, met_text, need, read_fields, told};
use field_rules::Unmade;
use hb_names::{FamilyName, TableName};
use hb_records::TableSchema;
use hb_wire::Items;
use snapshot_messages::{FamilyText, TableRule};
use std::alloc::Global;

type FamilyFields = (Last<1, FamilyText>, Repeated<2, AttributeRule>);

type SchemaFields = (Last<1, TableRule>, Repeated<3, FamilySchemaRule>);

/// The last of the counts that there are.
fn latest(counts: &[Option<u32>]) -> Option<u32>
    ensures { result ≡ latest counts.now }
{
    let mut last = None;
    for count in counts {
        if count.is_some() {
            last = *count;
        }
    }
    last
}

/// A family by its fields: its name, and how many versions of a cell a read shows.
fn family_made(
    name: Option<FamilyName>,
    counts: &Items<Option<u32>>,
) -> Result<(FamilyName, u32), Unmade>
    ensures { result ≡ family_made (name, counts.now) }
{
    let name = need(name, 1)?;
    let versions = latest(counts.as_slice());
    Ok((name, versions.unwrap_or(1)))
}

/// The family that a message is, which stands at a place.
fn read_family(alloc: Global, bytes: &[u8], place: u64) -> Result<(FamilyName, u32), RecordError>
    requires { place + length bytes.now < 2 ^ 64 }
    ensures found { IfOk result (IsFamilySchema bytes.now) }
    ensures fault { IfErr result (IsFamilySchemaFault bytes.now place) }
{
    let (name, counts): FamilyFields = read_fields(alloc, bytes, place)?;
    let made = family_made(name.value, &counts.values);
    told(made, bytes, place)
}

/// A family in a message.
#[derive(Clone, Copy, Debug)]
pub struct FamilySchemaRule;

impl Rule for FamilySchemaRule {
    type Value = (FamilyName, u32);

    ghost spells = { Inner IsFamilySchema };

    ghost faults = { Within IsFamilySchemaFault };

    fn read(alloc: Global, bytes: &[u8], met: &Met) -> Result<(FamilyName, u32), RecordError> {
        let message = met_text(bytes, met)?;
        read_family(alloc, message, met.inside)
    }
}

/// A schema by its fields.
fn schema_made(
    table: Option<TableName>,
    families: Items<(FamilyName, u32)>,
) -> Result<TableSchema, Unmade>
    ensures { result ≡ schema_made (table, families) }
{
    let table = need(table, 1)?;
    Ok(TableSchema { table, families })
}

/// The schema that a message is, which stands at a place.
fn read_schema(alloc: Global, bytes: &[u8], place: u64) -> Result<TableSchema, RecordError>
    requires { place + length bytes.now < 2 ^ 64 }
    ensures found { IfOk result (IsTableSchema bytes.now) }
    ensures fault { IfErr result (IsTableSchemaFault bytes.now place) }
{
    let (table, families): SchemaFields = read_fields(alloc, bytes, place)?;
    let made = schema_made(table.value, families.values);
    told(made, bytes, place)
}

/// A schema in a message.
#[derive(Clone, Copy, Debug)]
pub struct SchemaRule;

impl Rule for SchemaRule {
    type Value = TableSchema;

    ghost spells = { Inner IsTableSchema };

    ghost faults = { Within IsTableSchemaFault };

    fn read(alloc: Global, bytes: &[u8], met: &Met) -> Result<TableSchema, RecordError> {
        let message = met_text(bytes, met)?;
        read_schema(alloc, message, met.inside)
    }
}
