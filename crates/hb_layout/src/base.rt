//! The base of a store file, and its two places.

ghost use Rattle.std.specs.Prelude.{◌≡◌, ◌++◌, ◌∷◌, IfOk, OnOk};
ghost use Rattle.std.specs.List.{join_with_byte};
ghost use Rattle.hb_layout.specs.Spot.{Live, Archived, base_path, place_text};
ghost use Rattle.hb_layout.specs.Lawful.{IsSpelled};

use hb_file_names::FileName;
use hb_names::{Encoded, FamilyName, Place, TableName};
use hb_wire::{Blob, Copied, NoMemory};
use std::alloc::Global;

/// One store file with cells of its own, by where it belongs: the table, the encoded region, the family
/// and the name of the file.
#[derive(Debug, Drop, PartialEq, Eq, PartialOrd, Ord)]
pub struct Base {
    pub table: TableName,
    pub region: Encoded,
    pub family: FamilyName,
    pub name: FileName,
}

impl Copied for Base {
    fn copy(&self) -> Result<Base, NoMemory> {
        Ok(Base {
            table: self.table.copy()?,
            region: self.region.copy()?,
            family: self.family.copy()?,
            name: self.name.copy()?,
        })
    }
}

/// The place of a base's file while its region uses it:
/// `data/default/<table>/<encoded region>/<family>/<file name>`.
pub fn live(alloc: Global, base: &Base) -> Result<Place, NoMemory>
    ensures { IfOk result (λ place. place ≡ place_text (Live base.now)) }
{
    Ok(Place::from_blob(text_below(alloc, b"data/default/", base)?))
}

/// The place of a base's file once no region uses it:
/// `archive/data/default/<table>/<encoded region>/<family>/<file name>`.
pub fn archived(alloc: Global, base: &Base) -> Result<Place, NoMemory>
    ensures { IfOk result (λ place. place ≡ place_text (Archived base.now)) }
{
    Ok(Place::from_blob(text_below(alloc, b"archive/data/default/", base)?))
}

/// The components of a base below a directory.
fn text_below(alloc: Global, root: &[u8], base: &Base) -> Result<Blob, NoMemory>
    ensures spelled { OnOk result (IsSpelled (Archived base.now)) }
    ensures text { IfOk result (λ text. text ≡ root.now ++ join_with_byte 47 (base_path base.now)) }
{
    let mut text = Blob::copy_of(alloc, root)?;
    add_base(&mut text, base)?;
    Ok(text)
}

/// Adds the components of a base, with `/` between each two.
fn add_base(text: &mut Blob, base: &Base) -> Result<(), NoMemory>
    ensures spelled { OnOk result (IsSpelled (Archived base.now)) }
    ensures text { OnOk result (text.new ≡ text.old ++ (base.now.table ++ 47 ∷ (base.now.region ++ 47 ∷ (base.now.family ++ 47 ∷ base.now.name)))) }
{
    text.add(base.table.as_slice())?;
    text.add(b"/")?;
    text.add(base.region.as_slice())?;
    text.add(b"/")?;
    text.add(base.family.as_slice())?;
    text.add(b"/")?;
    text.add(base.name.as_slice())
}

#[cfg(test)]
mod tests {
    use super::*;
    use hb_file_names::FileParts;
    use std::test::Fail;

    #[test]
    fn a_base_has_two_places(rt: HostRuntime) -> Result<(), Fail> {
        let parts = FileParts {
            epoch: 1,
            counter: 2,
            seq: None,
        };
        let base = Base {
            table: TableName::read(rt.alloc(), b"t")?,
            region: Encoded::read(rt.alloc(), b"0123456789abcdef0123456789abcdef")?,
            family: FamilyName::read(rt.alloc(), b"f")?,
            name: FileName::new(rt.alloc(), parts)?,
        };
        let copy = base.copy()?;
        let place = live(rt.alloc(), &copy)?;
        let mut text = Blob::copy_of(rt.alloc(), b"archive/")?;
        text.add(place.as_slice())?;
        assert_eq!(rt; archived(rt.alloc(), &base)?.as_slice(), text.as_slice());
        assert!(rt;
            place
                .as_slice()
                .starts_with(b"data/default/t/0123456789abcdef0123456789abcdef/f/0000")
        );
        Ok(())
    }
}
