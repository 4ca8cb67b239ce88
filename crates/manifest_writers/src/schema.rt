//! Schemas of tables.
ghost use Rattle.std.specs.Prelude.{◌≡◌, ◌++◌, ◌↔◌, IsTrue, IfOk, OnOk};
ghost use Rattle.std.specs.List.{AllByRecursion, flat_map};
ghost use Rattle.wire_fields.specs.Fields.{text, field_bytes};
ghost use Rattle.manifest_writers.specs.Written.{attribute_bytes, family_schema_bytes, schema_bytes};
ghost use Rattle.manifest_writers.specs.Writable.{IsWritableFamily, IsWritableSchema};

use hb_names::FamilyName;
use hb_records::TableSchema;
use hb_wire::{Blob, NoMemory};
use snapshot_records::MAX_VERSIONS;
use snapshot_writers::table_message;
use std::alloc::Global;
use wire_fields::put_bytes_field;

/// Whether a schema can have a family: 1 to 2,147,483,647 versions.
fn is_writable_family(family: &(FamilyName, u32)) -> bool
    ensures { IsTrue result ↔ IsWritableFamily family.now }
{
    // The family's name is one by its type.
    let _name = family.0.as_slice();
    1 <= family.1 && family.1 <= MAX_VERSIONS
}

/// Whether a schema can have these families.
fn are_writable_families(families: &[(FamilyName, u32)]) -> bool
    ensures { IsTrue result ↔ AllByRecursion IsWritableFamily families.now }
{
    for family in families {
        if !is_writable_family(family) {
            return false;
        }
    }
    true
}

/// Whether a schema has a message: each family has 1 to 2,147,483,647 versions.
pub fn is_writable_schema(schema: &TableSchema) -> bool
    ensures { IsTrue result ↔ IsWritableSchema schema.now }
{
    // The table's name is one by its type.
    let _table = schema.table.as_slice();
    are_writable_families(schema.families.as_slice())
}

/// The attribute that tells a number of versions.
fn attribute_message(alloc: Global, versions: u32) -> Result<Blob, NoMemory>
    ensures { IfOk result (λ message. message ≡ attribute_bytes versions) }
{
    let digits = versions.to_string(alloc)?;
    let mut message = Blob::from_vec(Vec::new(alloc));
    put_bytes_field(&mut message, 1, b"VERSIONS")?;
    put_bytes_field(&mut message, 2, digits.as_bytes())?;
    Ok(message)
}

/// The message of a family.
fn family_message(alloc: Global, family: &(FamilyName, u32)) -> Result<Blob, NoMemory>
    ensures { IfOk result (λ message. message ≡ family_schema_bytes family.now) }
{
    let attribute = attribute_message(alloc, family.1)?;
    let mut message = Blob::from_vec(Vec::new(alloc));
    put_bytes_field(&mut message, 1, family.0.as_slice())?;
    put_bytes_field(&mut message, 2, attribute.as_slice())?;
    Ok(message)
}

/// Adds a field for each family.
fn put_families(out: &mut Blob, families: &[(FamilyName, u32)]) -> Result<(), NoMemory>
    ensures { OnOk result (out.new ≡ out.old ++ flat_map (λ f. field_bytes 3 (text (family_schema_bytes f))) families.now) }
{
    for family in families {
        let message = family_message(out.allocator(), family)?;
        put_bytes_field(out, 3, message.as_slice())?;
    }
    Ok(())
}

/// The message of a schema.
pub(crate) fn schema_message(alloc: Global, schema: &TableSchema) -> Result<Blob, NoMemory>
    ensures { IfOk result (λ message. message ≡ schema_bytes schema.now) }
{
    let table = table_message(alloc, &schema.table)?;
    let mut message = Blob::from_vec(Vec::new(alloc));
    put_bytes_field(&mut message, 1, table.as_slice())?;
    put_families(&mut message, schema.families.as_slice())?;
    Ok(message)
}
