use super::*;
use core_model::{OldFile, Step};
use hb_file_names::{FileName, FileParts};
use hb_names::{Encoded, Place, TableName};
use plain_model::{Actor, RegionKey};
use reserved_map::ReservedMap;
use std::test::Fail;

#[test]
fn files_have_places(rt: HostRuntime) -> Result<(), Fail> {
    let parts = FileParts {
        epoch: 1,
        counter: 2,
        seq: None,
    };
    let work = tmp_place(rt.alloc(), &FileName::new(rt.alloc(), parts)?)?;
    assert_eq!(rt;
        work.as_slice(),
        b".tmp/00000000000000010000000000000002".as_slice()
    );
    let set = set_place(rt.alloc(), &TableName::read(rt.alloc(), b"t")?, 12)?;
    assert_eq!(rt; set.as_slice(), b"data/default/t/.regions/12".as_slice());
    Ok(())
}

#[test]
fn files_are_made(rt: HostRuntime) -> Result<(), Fail> {
    let mut places = ReservedMap::new(rt.alloc());
    let change = PlaceChange {
        gone: None,
        made: Some(set_place(rt.alloc(), &TableName::read(rt.alloc(), b"t")?, 1)?),
    };
    ready_places(&mut places, &change)?;
    places_after(&mut places, &change);
    assert!(rt; places.keys(rt.alloc())?.len() == 1);
    Ok(())
}

#[test]
fn old_files_go(rt: HostRuntime) -> Result<(), Fail> {
    let step = Step::DropOld {
        actor: Actor(0),
        file: OldFile::Set(
            TableName::read(rt.alloc(), b"t")?,
            9_223_372_036_854_775_807,
        ),
    };
    let change = change_of(rt.alloc(), &step)?;
    assert!(rt; change.gone.is_some());
    assert!(rt; change.made.is_none());
    Ok(())
}

#[test]
fn files_stand_below_a_region(rt: HostRuntime) -> Result<(), Fail> {
    let region = RegionKey {
        table: TableName::read(rt.alloc(), b"t")?,
        region: Encoded::read(rt.alloc(), b"0123456789abcdef0123456789abcdef")?,
    };
    for (place, stands) in [
        (
            "data/default/t/0123456789abcdef0123456789abcdef/f/00000000000000010000000000000002",
            true,
        ),
        (
            "data/default/t/0123456789abcdef0123456789abcdef/-/00000000000000010000000000000002",
            true,
        ),
        (
            "data/default/t/0123456789abcdef0123456789abcdef/.filelist/3",
            true,
        ),
        (
            "archive/data/default/t/0123456789abcdef0123456789abcdef/f/00000000000000010000000000000002",
            true,
        ),
        (
            "archive/data/default/t/0123456789abcdef0123456789abcdef/f/.links-00000000000000010000000000000002/r.u",
            true,
        ),
        (
            "data/default/t/0123456789abcdef0123456789abcdee/f/00000000000000010000000000000002",
            false,
        ),
        (
            "data/default/t/0123456789abcdef0123456789abcdff/f/00000000000000010000000000000002",
            false,
        ),
        (
            "data/default/t/0123456789abcdef0123456789abcdef-/f/00000000000000010000000000000002",
            false,
        ),
        (
            "data/default/tt/0123456789abcdef0123456789abcdef/f/00000000000000010000000000000002",
            false,
        ),
        (
            "archive/data/default/s/0123456789abcdef0123456789abcdef/f/00000000000000010000000000000002",
            false,
        ),
        ("data/default/t/.regions/1", false),
        (".tmp/00000000000000010000000000000002", false),
    ] {
        let mut places = ReservedMap::new(rt.alloc());
        let file = Place::read(rt.alloc(), place.as_bytes())?;
        places.reserve(&file)?;
        assert!(rt;
            !stands_below(rt.alloc(), &places, &region)?,
            "{place} is reserved"
        );
        places.put(&file, ());
        assert!(rt;
            stands_below(rt.alloc(), &places, &region)? == stands,
            "{place} stands"
        );
    }
    Ok(())
}
