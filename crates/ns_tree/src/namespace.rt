//! The calls of every store of files.
ghost use Rattle.std.specs.Prelude.{◌≡◌, ◌≤◌, ◌⊎◌, ℕ, Option, Some, None, IsTrue, IfOk, OnOk, IfErr, IfSome, IsErrOf, length, option_copied, option_map};
ghost use Rattle.std.specs.FinMap as map;
ghost use Rattle.hb_causes.specs.Faults.{Rose};
ghost use Rattle.ns_tree.specs.Namespace.{IsDone, IsRefused, is_create_error, is_change_error, bytes_at, stat_of};
ghost use Rattle.ns_tree.specs.Step.{Create, Append, Rename, Delete, Touch};
ghost use Rattle.ns_tree.specs.Tree.{Tree, IsTree, listing};

use crate::file::Stat;
use bytes::Bytes;
use hb_names::Place;
use hb_wire::{Items, NoMemory};
use thiserror::Error;

/// Why a call of a store did nothing, or may have done nothing.
#[derive(Clone, Copy, Debug, PartialEq, Eq, Error)]
pub enum NsError {
    /// There is no such file, and for a rename nothing below either.
    #[error("no such file")]
    Missing,
    /// A rename would move a directory into itself, or a file too deep.
    #[error("moved into itself or too deep")]
    Inside,
    /// A file stands at the place or below it.
    #[error("something stands there")]
    Exists,
    /// The place lies below a file.
    #[error("below a file")]
    BelowFile,
    /// The store failed. Its count of faults rose.
    #[error("the store failed")]
    Failed,
    #[error("no memory")]
    NoMemory,
}

impl From<NoMemory> for NsError {
    ghost use Rattle.ns_tree.specs.declared.namespace.NsError.TheVariants.{NoMemory};

    ghost from_gives = { λ _ error. error ≡ NoMemory };

    fn from(_: NoMemory) -> NsError {
        NsError::NoMemory
    }
}

/// A store of files. It may tell its tree, in contracts alone: no call says whether it does.
pub trait Namespace {
    /// The tree that it tells, or none. Its keys are places, and no file stands below a file, which
    /// `faults` says of the store as it is.
    ghost told: { Self → Option Tree };

    /// How many of its calls have failed, up to the last value of a `u64`.
    ghost faults: { Self → ℕ };

    /// Makes a file with moment 0. `Exists`: a file stands at the place or below it. `BelowFile`: the place
    /// lies below a file.
    fn create(&mut self, place: &Place, bytes: &[u8]) -> Result<(), NsError>
        ensures done { OnOk result (IsDone (Create place.now bytes.now) (told self.old) (told self.new)) }
        ensures refused { IfErr result (λ error. IsRefused (Create place.now bytes.now) error (told self.old) (told self.new)) }
        ensures only { IfErr result (λ error. IsTrue (is_create_error error)) }
        ensures failed { IsErrOf result NsError.Failed → Rose (faults self.old) (faults self.new) }
        ensures later { faults self.old ≤ faults self.new };

    /// Adds bytes at the end of a file. `Missing`: there is none.
    fn append(&mut self, place: &Place, bytes: &[u8]) -> Result<(), NsError>
        ensures done { OnOk result (IsDone (Append place.now bytes.now) (told self.old) (told self.new)) }
        ensures refused { IfErr result (λ error. IsRefused (Append place.now bytes.now) error (told self.old) (told self.new)) }
        ensures only { IfErr result (λ error. IsTrue (is_change_error error)) }
        ensures failed { IsErrOf result NsError.Failed → Rose (faults self.old) (faults self.new) }
        ensures later { faults self.old ≤ faults self.new };

    /// Moves a file, or all files below a directory, with their bytes and moments. `Missing`: nothing stands at
    /// or below `from`. `Inside`: `to` lies below `from`, or a file would have more than 16 components.
    /// `Exists`: something stands at or below `to`. `BelowFile`: `to` lies below a file.
    fn rename(&mut self, from: &Place, to: &Place) -> Result<(), NsError>
        ensures done { OnOk result (IsDone (Rename from.now to.now) (told self.old) (told self.new)) }
        ensures refused { IfErr result (λ error. IsRefused (Rename from.now to.now) error (told self.old) (told self.new)) }
        ensures failed { IsErrOf result NsError.Failed → Rose (faults self.old) (faults self.new) }
        ensures later { faults self.old ≤ faults self.new };

    /// Removes a file. `Missing`: there is none.
    fn delete(&mut self, place: &Place) -> Result<(), NsError>
        ensures done { OnOk result (IsDone (Delete place.now) (told self.old) (told self.new)) }
        ensures refused { IfErr result (λ error. IsRefused (Delete place.now) error (told self.old) (told self.new)) }
        ensures only { IfErr result (λ error. IsTrue (is_change_error error)) }
        ensures failed { IsErrOf result NsError.Failed → Rose (faults self.old) (faults self.new) }
        ensures later { faults self.old ≤ faults self.new };

    /// Sets the moment of a file. `Missing`: there is none.
    fn touch(&mut self, place: &Place, moment: u64) -> Result<(), NsError>
        ensures done { OnOk result (IsDone (Touch place.now moment) (told self.old) (told self.new)) }
        ensures refused { IfErr result (λ error. IsRefused (Touch place.now moment) error (told self.old) (told self.new)) }
        ensures only { IfErr result (λ error. IsTrue (is_change_error error)) }
        ensures failed { IsErrOf result NsError.Failed → Rose (faults self.old) (faults self.new) }
        ensures later { faults self.old ≤ faults self.new };

    /// The bytes of a file from a position on, at most `len`: fewer only at the file's end. `Missing`: there
    /// is no file.
    fn read_at(&mut self, place: &Place, at: u64, len: usize) -> Result<Bytes, NsError>
        ensures same { told self.new ≡ told self.old }
        ensures ok { IfOk result (λ bytes. IfSome (told self.old) (λ tree. option_map (bytes_at at len) (map.get tree place.now) ≡ Some bytes)) }
        ensures most { IfOk result (λ bytes. length bytes ≤ len) }
        ensures missing { IsErrOf result NsError.Missing → IfSome (told self.old) (λ tree. map.get tree place.now ≡ None) }
        ensures only { IfErr result (λ error. IsTrue (is_change_error error)) }
        ensures failed { IsErrOf result NsError.Failed → Rose (faults self.old) (faults self.new) }
        ensures later { faults self.old ≤ faults self.new };

    /// The size and the moment of a file. `Missing`: there is none.
    fn stat(&mut self, place: &Place) -> Result<Stat, NsError>
        ensures same { told self.new ≡ told self.old }
        ensures ok { IfOk result (λ stat. IfSome (told self.old) (λ tree. option_map stat_of (map.get tree place.now) ≡ Some stat)) }
        ensures missing { IsErrOf result NsError.Missing → IfSome (told self.old) (λ tree. map.get tree place.now ≡ None) }
        ensures only { IfErr result (λ error. IsTrue (is_change_error error)) }
        ensures failed { IsErrOf result NsError.Failed → Rose (faults self.old) (faults self.new) }
        ensures later { faults self.old ≤ faults self.new };

    /// The places of all files, or of those below a directory, in byte order.
    fn list(&mut self, below: Option<&Place>) -> Result<Items<Place>, NsError>
        ensures same { told self.new ≡ told self.old }
        ensures ok { IfOk result (λ places. IfSome (told self.old) (λ tree. places ≡ listing (option_copied below.entry) tree)) }
        ensures only { IfErr result (λ error. (error ≡ NsError.Failed) ⊎ (error ≡ NsError.NoMemory)) }
        ensures failed { IsErrOf result NsError.Failed → Rose (faults self.old) (faults self.new) }
        ensures later { faults self.old ≤ faults self.new };

    /// How many of its calls have failed.
    fn faults(&self) -> u64
        ensures count { result ≡ faults self.now }
        ensures tree { IfSome (told self.now) IsTree };
}
