//! That what is written is the record of its value.

ghost use Rattle.snapshot_writers.specs.Written.{ReferencesAreWritten, InfosAreWritten, RegionsAreWritten};

/// What is written of a reference, a description and a region that have a record is their record.
pub fn writings_told()
    ensures references { ReferencesAreWritten }
    ensures infos { InfosAreWritten }
    ensures regions { RegionsAreWritten }
{}
