//! The families of a region, whose names ascend strictly.
ghost use Rattle.std.specs.Prelude.{◌≡◌, ◌↔◌, ◌++◌, ◌∷◌, [], IsTrue};
ghost use Rattle.field_rules.specs.Rules.{Rising};
ghost use Rattle.field_rules.specs.Values.{Inner};
ghost use Rattle.snapshot_records.specs.Files.{IsFamilyFiles};
ghost use Rattle.manifest_messages.specs.Faults.{AreRising, WrongFamily};

use crate::file::{FamilyFiles, FilesRule};
use field_reader::{Fields, Met, RecordError, Rule};
use hb_wire::Items;
use std::alloc::Global;

/// The number of the field of a family's files.
const FAMILY: u32 = 3;

/// The families so far.
#[derive(Drop)]
pub struct Families {
    pub values: Items<FamilyFiles>,
}

/// Whether a family stands above the last one.
fn is_above(families: &[FamilyFiles], family: &FamilyFiles) -> bool
    ensures { AreRising families.now → IsTrue result ↔ AreRising (families.now ++ family.now ∷ []) }
{
    match families.split_last() {
        Some((last, _front)) => last.0.as_slice().cmp(family.0.as_slice()).is_lt(),
        None => true,
    }
}

impl Fields for Families {
    ghost rules = { λ parts fields. Rising (Inner IsFamilyFiles) 3 parts fields.values };

    ghost wrong = { WrongFamily };

    fn start(alloc: Global) -> Families {
        Families {
            values: Items::new(alloc),
        }
    }

    fn add(
        &mut self,
        alloc: Global,
        bytes: &[u8],
        number: u32,
        met: &Met,
    ) -> Result<(), RecordError> {
        if number == FAMILY {
            let family = FilesRule::read(alloc, bytes, met)?;
            if !is_above(self.values.as_slice(), &family) {
                return Err(RecordError::BadRecord(met.at));
            }
            match self.values.push(family) {
                Ok(()) => {}
                Err(_refused) => return Err(RecordError::NoMemory),
            }
        }
        Ok(())
    }
}
