//! Places of files.

ghost use Rattle.std.specs.Prelude.{◌≡◌, ◌++◌, ℕ, List, IfOk, IfErr, OnOk, OnErr};
ghost use Rattle.std.specs.List.{join_with_byte};
ghost use Rattle.hb_grammar.specs.Grammar.{Same, IsFault};
ghost use Rattle.hb_names.specs.NameError.{IsRefusal};
ghost use Rattle.hb_names.specs.Place.{IsPlace, AreComponents};

use crate::component::ComponentGrammar;
use crate::error::{BadName, NameError};
use hb_grammar::{Grammar, Separated, scan};
use hb_wire::{Blob, Copied, NoMemory};
use std::alloc::Global;
use std::marker::Model;

/// The greatest count of components of a place.
pub const MAX_COMPONENTS: usize = 16;

type PlaceGrammar = Separated<ComponentGrammar>;

/// Where a file stands: 1 to 16 components joined by `/`. A component has 1 to 255 letters, digits and
/// `_ - . =`, and is neither `.` nor `..`. Places are ordered as their bytes.
#[derive(Debug, Drop, PartialEq, Eq, PartialOrd, Ord)]
pub struct Place {
    text: Blob,
}

impl Model for Place {
    ghost use Rattle.std.specs.Prelude.{List, ℕ};
    ghost use Rattle.hb_names.specs.Place.{IsPlace};

    ghost Value = { List ℕ };

    ghost view = { λ place. place.text };

    ghost invariant = { λ place. IsPlace place.text };

    ghost inverse = { λ text. record { text = text } };
}

fn place_grammar() -> PlaceGrammar
    ensures { Same (⟦<PlaceGrammar as Grammar>⟧.spells result) IsPlace }
{
    Separated::new(ComponentGrammar::new(), b'/', MAX_COMPONENTS - 1)
}

impl Place {
    /// The place that the bytes are: the input itself. It takes no memory.
    pub fn parse(bytes: &[u8]) -> Result<&[u8], BadName>
        ensures same { IfOk result (λ place. place.now ≡ bytes.now) }
        ensures found { IfOk result (λ _. IsPlace bytes.now) }
        ensures fault { IfErr result (λ bad. IsFault IsPlace bytes.now bad.0) }
    {
        match scan(place_grammar(), bytes) {
            Ok(()) => Ok(bytes),
            Err(fault) => Err(BadName(fault.0)),
        }
    }

    /// The place that the bytes are, with a copy of them.
    pub fn read(alloc: Global, bytes: &[u8]) -> Result<Place, NameError>
        ensures same { IfOk result (λ place. place ≡ bytes.now) }
        ensures found { IfOk result (λ _. IsPlace bytes.now) }
        ensures refused { IfErr result (IsRefusal IsPlace bytes.now) }
    {
        let place = Place::parse(bytes)?;
        Ok(Place {
            text: Blob::copy_of(alloc, place)?,
        })
    }

    /// The place of bytes that are known to be one. It takes no memory.
    pub fn from_blob(text: Blob) -> Place
        requires { IsPlace text }
        ensures { result ≡ text }
    {
        Place { text }
    }

    /// Adds the place's bytes at the end of `out`. Without memory for them nothing changes.
    pub fn write(&self, out: &mut Blob) -> Result<(), NoMemory>
        ensures ok { OnOk result (out.new ≡ out.old ++ self.now) }
        ensures err { OnErr result (out.new ≡ out.old) }
    {
        out.add(self.text.as_slice())
    }

    /// The place's bytes.
    pub fn as_slice(&self) -> &[u8]
        ensures bytes { result.now ≡ self.now }
        ensures valid { IsPlace self.now }
    {
        self.text.as_slice()
    }

    /// The byte string that holds the place's bytes.
    pub fn as_blob(&self) -> &Blob
        ensures bytes { result.now ≡ self.now }
        ensures valid { IsPlace self.now }
    {
        &self.text
    }

    /// The byte string that holds the place's bytes. It takes no memory.
    pub fn into_blob(self) -> Blob
        ensures bytes { result ≡ self }
        ensures valid { IsPlace self }
    {
        self.text
    }
}

/// A place is 1 to 16 components joined by `/`: such components have a place, and each place has such
/// components.
pub fn places_are_components()
    ensures joined { (components : List (List ℕ)) → AreComponents components → IsPlace (join_with_byte 47 components) }
    ensures split { (place : List ℕ) → IsPlace place → (components : List (List ℕ)) × AreComponents components × (place ≡ join_with_byte 47 components) }
{}

impl Copied for Place {
    fn copy(&self) -> Result<Place, NoMemory> {
        Ok(Place {
            text: self.text.copy()?,
        })
    }
}

#[cfg(test)]
mod tests {
    use super::*;

    #[test]
    fn the_place_of_a_fault(rt: HostRuntime) {
        let long = [b'a'; 256];
        let table: [(&[u8], Option<usize>); 14] = [
            (b"a", None),
            (b"data/default/t/.regions/1", None),
            (b"A-Z_0=9.x/...", None),
            (b"a/.../b", None),
            (&long[..255], None),
            (b"a/a/a/a/a/a/a/a/a/a/a/a/a/a/a/a", None),
            (b"", Some(0)),
            (b"/a", Some(0)),
            (b"a/./b", Some(3)),
            (b"a/..", Some(4)),
            (b"a//b", Some(2)),
            (b"a/b c", Some(3)),
            (&long, Some(255)),
            (b"a/a/a/a/a/a/a/a/a/a/a/a/a/a/a/a/a", Some(31)),
        ];
        for (text, fault) in table {
            let found = match Place::parse(text) {
                Ok(_) => None,
                Err(bad) => Some(bad.0),
            };
            assert_eq!(rt; found, fault, "at {} bytes", text.len());
        }
    }
}
