//! Region sets of tables.

ghost use Rattle.std.specs.Prelude.{◌≡◌, ◌≤◌, ◌++◌, length, drop, codes, IfOk, IfErr, OnOk, Err, IsTrue, ◌↔◌};
ghost use Rattle.hb_grammar.specs.Grammar.{IsFault};
ghost use Rattle.commit_line.specs.Line.{ended};
ghost use Rattle.commit_line.specs.ListError.{IsFileRefusal, IsRefusalAt};
ghost use Rattle.region_set.specs.Body.{IsEndRead, IsBodyRead};
ghost use Rattle.std.specs.List.{flat_map};
ghost use Rattle.region_set.specs.FamilyLine.{family_text};
ghost use Rattle.region_set.specs.RegionLine.{region_text};
ghost use Rattle.region_set.specs.RegionSet.{IsRegionSet, IsSetFile, region_set_text, GivesSet};
ghost use Rattle.commit_line.specs.Numbered.{HasOtherNumber, IsNumberedRefusal};
ghost use Rattle.commit_line.specs.declared.error.ListError.TheVariants.{BadList};

use crate::family_line::{are_families, read_families, write_family};
use crate::region_line::write_region;
use crate::regions::{are_regions, read_regions};
use crate::set_state::{SetState, read_state};
use commit_line::{BadText, ListError, MAX_NUMBER, check_number, read_number};
use hb_grammar::{Literal, scan};
use hb_names::{FamilyName, TableName};
use hb_records::{RegionInfo, TableSchema};
use hb_wire::{Blob, Copied, Items, NoMemory};
use std::alloc::Global;

/// The region set of a table: its number, the table's state and schema, and its regions in the order of their
/// starts and ids, each with whether it is split.
#[derive(Debug, Drop, PartialEq, Eq)]
pub struct RegionSet {
    pub number: u64,
    pub state: SetState,
    pub schema: TableSchema,
    pub regions: Items<(RegionInfo, bool)>,
}

/// Reads the last line, behind which a file ends.
fn read_end(bytes: &[u8], at: usize) -> Result<(), BadText>
    requires { at ≤ length bytes.now }
    ensures { IsEndRead bytes.now at result }
{
    match scan(Literal { text: b"end\n" }, &bytes[at..]) {
        Ok(()) => Ok(()),
        Err(fault) => Err(BadText((at + fault.0) as u64)),
    }
}

type Body = (Items<(FamilyName, u32)>, Items<(RegionInfo, bool)>);

/// Reads the families and regions of a table in this state, and the last line.
fn read_body(
    alloc: Global,
    table: &TableName,
    state: SetState,
    bytes: &[u8],
    at: usize,
) -> Result<Body, ListError>
    requires { at ≤ length bytes.now }
    ensures { IsBodyRead table.now state bytes.now at result }
{
    if state.is_dropped() {
        read_end(bytes, at)?;
        return Ok((Items::new(alloc), Items::new(alloc)));
    }
    let (families, at) = read_families(alloc, bytes, at)?;
    let (regions, at) = read_regions(alloc, table, bytes, at)?;
    read_end(bytes, at)?;
    Ok((families, regions))
}

/// The set that the bytes of a file are.
fn set_of(alloc: Global, table: &TableName, bytes: &[u8]) -> Result<RegionSet, ListError>
    ensures found { IfOk result (λ set. IsRegionSet table.now set × (bytes.now ≡ region_set_text set)) }
    ensures fault { IfErr result (IsFileRefusal (IsSetFile table.now) bytes.now) }
{
    let (number, state_at) = read_number(b"set ", 1, MAX_NUMBER, bytes, 0)?;
    let (state, body_at) = read_state(bytes, state_at)?;
    let (families, regions) = read_body(alloc, table, state, bytes, body_at)?;
    let schema = TableSchema {
        table: table.copy()?,
        families,
    };
    Ok(RegionSet {
        number,
        state,
        schema,
        regions,
    })
}

impl RegionSet {
    /// The region set of a table that the bytes of a file are, or `BadList` with the length of the longest prefix
    /// that is a prefix of one.
    pub fn decode(alloc: Global, table: &TableName, bytes: &[u8]) -> Result<RegionSet, ListError>
        // What is read is this set's text, each byte of it.
        ensures found { IfOk result (λ set. IsRegionSet table.now set × (bytes.now ≡ region_set_text set)) }
        // What is a set's text is read as this set.
        ensures only { (set : RegionSet) → IsRegionSet table.now set → bytes.now ≡ region_set_text set → GivesSet result set }
        // Where it is none's.
        ensures fault { IfErr result (IsFileRefusal (IsSetFile table.now) bytes.now) }
    {
        set_of(alloc, table, bytes)
    }

    /// The region set of a table and of this number that the bytes of a file are. Where the file begins with
    /// another number the answer is `BadList(0)`, before any fault of what stands behind.
    pub fn read(
        alloc: Global,
        number: u64,
        table: &TableName,
        bytes: &[u8],
    ) -> Result<RegionSet, ListError>
        // What is read is this set's text, each byte of it.
        ensures found { IfOk result (λ set. IsRegionSet table.now set × (bytes.now ≡ region_set_text set)) }
        ensures number { IfOk result (λ set. set.number ≡ number) }
        // What is a set's text, and has the number, is read as this set.
        ensures only { (set : RegionSet) → IsRegionSet table.now set → bytes.now ≡ region_set_text set → set.number ≡ number → GivesSet result set }
        // What begins with another number is refused at place 0.
        ensures other { HasOtherNumber (codes "set ") number bytes.now → result ≡ Err (BadList 0) }
        // Where it is none's.
        ensures fault { IfErr result (IsNumberedRefusal (codes "set ") (IsSetFile table.now) number bytes.now) }
    {
        check_number(b"set ", number, bytes)?;
        set_of(alloc, table, bytes)
    }

    /// Whether a file can have the set: the numbers are within their limits, families and regions ascend, each
    /// region is of the set's table, and a dropped set has none of them.
    pub fn is_valid(&self) -> bool
        ensures { IsTrue result ↔ IsRegionSet self.now.schema.table self.now }
    {
        let families = self.schema.families.as_slice();
        let regions = self.regions.as_slice();
        let bare = families.is_empty() && regions.is_empty();
        1 <= self.number
            && self.number <= MAX_NUMBER
            && (bare || !self.state.is_dropped())
            && are_families(families)
            && are_regions(&self.schema.table, regions)
    }

    /// The text of the set's file.
    pub fn encode(&self, alloc: Global) -> Result<Blob, NoMemory>
        requires { IsRegionSet self.now.schema.table self.now }
        ensures { IfOk result (λ text. text ≡ region_set_text self.now) }
    {
        let mut text = Blob::copy_of(alloc, b"set ")?;
        let number = self.number.to_string(alloc)?;
        text.add(number.as_bytes())?;
        text.add(b"\n")?;
        text.add(self.state.word())?;
        text.add(b"\n")?;
        add_families(self.schema.families.as_slice(), &mut text)?;
        add_regions(self.regions.as_slice(), &mut text)?;
        text.add(b"end\n")?;
        Ok(text)
    }
}

impl Copied for RegionSet {
    fn copy(&self) -> Result<RegionSet, NoMemory> {
        Ok(RegionSet {
            number: self.number,
            state: self.state,
            schema: self.schema.copy()?,
            regions: self.regions.copy()?,
        })
    }
}

/// Adds the lines of families.
fn add_families(families: &[(FamilyName, u32)], text: &mut Blob) -> Result<(), NoMemory>
    ensures { OnOk result (text.new ≡ text.old ++ flat_map family_text families.now) }
{
    for family in families {
        write_family(family, text)?;
    }
    Ok(())
}

/// Adds the lines of regions.
fn add_regions(regions: &[(RegionInfo, bool)], text: &mut Blob) -> Result<(), NoMemory>
    ensures { OnOk result (text.new ≡ text.old ++ flat_map region_text regions.now) }
{
    for region in regions {
        write_region(region, text)?;
    }
    Ok(())
}
