//! Which files a step moves.

ghost use Rattle.std.specs.Prelude.{◌≡◌, IfOk, OnOk, Some, None};
ghost use Rattle.core_model.specs.Ops.{old_site, op_of};
ghost use Rattle.core_model.specs.Site.{site_text};
ghost use Rattle.core_sites.specs.Shows.{MakesSpelled};
ghost use Rattle.core_places.specs.Places.{made_at, gone_at, place_at};
ghost use Rattle.core_places.specs.Served.{IsServed, IsServedFile};

use crate::texts::{set_place, tmp_place};
use core_model::{OldFile, Step};
use hb_names::Place;
use hb_wire::NoMemory;
use std::alloc::Global;

/// The place that a step takes a file from, and the one at which it makes one.
#[derive(Debug, Drop)]
pub struct PlaceChange {
    pub gone: Option<Place>,
    pub made: Option<Place>,
}

impl PlaceChange {
    /// No file is moved.
    fn none() -> PlaceChange
        ensures gone { result.gone ≡ None }
        ensures made { result.made ≡ None }
    {
        PlaceChange {
            gone: None,
            made: None,
        }
    }
}

/// Which files a step moves, of those that are served.
pub fn change_of(alloc: Global, step: &Step) -> Result<PlaceChange, NoMemory>
    requires { IsServed step.now }
    ensures spelled { OnOk result (MakesSpelled (op_of step.now)) }
    ensures gone { IfOk result (λ change. change.gone ≡ place_at (gone_at (op_of step.now))) }
    ensures made { IfOk result (λ change. change.made ≡ place_at (made_at (op_of step.now))) }
{
    match step {
        Step::WriteTmp { name, .. } => Ok(PlaceChange {
            gone: None,
            made: Some(tmp_place(alloc, name)?),
        }),
        Step::CommitRegions {
            table,
            number,
            name,
            ..
        } => Ok(PlaceChange {
            gone: Some(tmp_place(alloc, name)?),
            made: Some(set_place(alloc, table, *number + 1)?),
        }),
        Step::DropOld { file, .. } => Ok(PlaceChange {
            gone: place_of_old(alloc, file)?,
            made: None,
        }),
        _ => Ok(PlaceChange::none()),
    }
}

/// Where an old file stands, of those that are served.
fn place_of_old(alloc: Global, file: &OldFile) -> Result<Option<Place>, NoMemory>
    requires { IsServedFile file.now }
    ensures { IfOk result (λ place. place ≡ Some (site_text (old_site file.now))) }
{
    match file {
        OldFile::Set(table, number) => Ok(Some(set_place(alloc, table, *number)?)),
        OldFile::Tmp(name) => Ok(Some(tmp_place(alloc, name)?)),
        _ => Ok(None),
    }
}
