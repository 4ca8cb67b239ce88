//! Names of tables in messages.
ghost use Rattle.std.specs.Prelude.{◌≡◌, ◌^◌, ◌+◌, ◌<◌, length, IfOk, IfErr};
ghost use Rattle.field_rules.specs.Values.{Inner};
ghost use Rattle.field_reader.specs.Faults.{Within};
ghost use Rattle.snapshot_records.specs.TableMessage.{IsTableMessage, table_made};
ghost use Rattle.snapshot_messages.specs.Faults.{IsTableMessageFault};

use crate::rules::{DefaultText, TableText};
use field_reader::{Last, Met, RecordError, Rule, met_text, need, read_fields, told};
use field_rules::Unmade;
use hb_names::TableName;
use hb_wire::Blob;
use std::alloc::Global;

type TableFields = (Last<1, DefaultText>, Last<2, TableText>);

/// The name of a table in its namespace.
fn table_made(namespace: Option<Blob>, name: Option<TableName>) -> Result<TableName, Unmade>
    ensures { result ≡ table_made (namespace, name) }
{
    let _default = namespace;
    need(name, 2)
}

/// The name that a message is, which stands at a place, or its fault.
///
/// Source: HBase `TableName`.
pub fn read_table(alloc: Global, bytes: &[u8], place: u64) -> Result<TableName, RecordError>
    requires { place + length bytes.now < 2 ^ 64 }
    ensures found { IfOk result (IsTableMessage bytes.now) }
    ensures fault { IfErr result (IsTableMessageFault bytes.now place) }
{
    let (namespace, name): TableFields = read_fields(alloc, bytes, place)?;
    told(table_made(namespace.value, name.value), bytes, place)
}

/// The name of a table in a message.
#[derive(Clone, Copy, Debug)]
pub struct TableRule;

impl Rule for TableRule {
    type Value = TableName;

    ghost spells = { Inner IsTableMessage };

    ghost faults = { Within IsTableMessageFault };

    fn read(alloc: Global, bytes: &[u8], met: &Met) -> Result<TableName, RecordError> {
        let message = met_text(bytes, met)?;
        read_table(alloc, message, met.inside)
    }
}
