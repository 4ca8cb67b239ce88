//! The places of files that steps write.

ghost use Rattle.std.specs.Prelude.{◌≡◌, IfOk, OnOk};
ghost use Rattle.hb_layout.specs.Lawful.{IsListNumber};
ghost use Rattle.core_model.specs.Site.{RegionSet, Tmp, site_text};
ghost use Rattle.core_sites.specs.Shows.{IsSpelledSite};

use hb_file_names::FileName;
use hb_names::{Place, TableName};
use hb_wire::{Blob, NoMemory};
use std::alloc::Global;

/// The place of work in progress: `.tmp/<file name>`.
pub fn tmp_place(alloc: Global, name: &FileName) -> Result<Place, NoMemory>
    ensures spelled { OnOk result (IsSpelledSite (Tmp name.now)) }
    ensures text { IfOk result (λ place. place ≡ site_text (Tmp name.now)) }
{
    Ok(Place::from_blob(tmp_text(alloc, name)?))
}

fn tmp_text(alloc: Global, name: &FileName) -> Result<Blob, NoMemory>
    ensures spelled { OnOk result (IsSpelledSite (Tmp name.now)) }
    ensures text { IfOk result (λ text. text ≡ site_text (Tmp name.now)) }
{
    let mut text = Blob::copy_of(alloc, b".tmp/")?;
    text.add(name.as_slice())?;
    Ok(text)
}

/// The place of a table's region set of this number: `data/default/<table>/.regions/<number>`.
pub fn set_place(alloc: Global, table: &TableName, number: u64) -> Result<Place, NoMemory>
    requires { IsListNumber number }
    ensures spelled { OnOk result (IsSpelledSite (RegionSet table.now number)) }
    ensures text { IfOk result (λ place. place ≡ site_text (RegionSet table.now number)) }
{
    Ok(Place::from_blob(set_text(alloc, table, number)?))
}

fn set_text(alloc: Global, table: &TableName, number: u64) -> Result<Blob, NoMemory>
    requires { IsListNumber number }
    ensures spelled { OnOk result (IsSpelledSite (RegionSet table.now number)) }
    ensures text { IfOk result (λ text. text ≡ site_text (RegionSet table.now number)) }
{
    let digits = number.to_string(alloc)?;
    let mut text = Blob::copy_of(alloc, b"data/default/")?;
    text.add(table.as_slice())?;
    text.add(b"/.regions/")?;
    text.add(digits.as_bytes())?;
    Ok(text)
}
