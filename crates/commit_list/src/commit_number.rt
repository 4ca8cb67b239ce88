//! Numbers of commit files.

ghost use Rattle.std.specs.Prelude.{◌≡◌};
ghost use Rattle.commit_list.specs.CommitNumber.{IsBehindSlash, HasNoSlash, IsNumberOf, IsNewest, newer};

use commit_line::MAX_NUMBER;
use hb_grammar::{Between, number_of, scan};
use hb_names::Place;
use hb_wire::Items;

/// The last component of a place.
fn last_component(place: &[u8]) -> &[u8]
    ensures last { IsBehindSlash place.now result.now }
    ensures plain { HasNoSlash result.now }
{
    let mut at = place.len();
    while at > 0 && place[at - 1] != b'/' {
        at -= 1;
    }
    &place[at..]
}

/// The number that a commit file's place ends with, if it is one's.
fn number_of_place(place: &[u8]) -> Option<u64>
    ensures { IsNumberOf place.now result }
{
    let component = last_component(place);
    match scan(Between::new(1, MAX_NUMBER), component) {
        Ok(()) => Some(number_of(component)),
        Err(_) => None,
    }
}

/// The greater of two numbers that may be there.
fn newer(newest: Option<u64>, number: Option<u64>) -> Option<u64>
    ensures { result ≡ newer newest number }
{
    match number {
        Some(number) => Some(newest.unwrap_or(0).max(number)),
        None => newest,
    }
}

/// The greatest number that one of the places ends with: that of the newest commit file of a directory. Places
/// whose last component is no number from 1 to 2 ^ 63 - 1 count for nothing. It takes no memory.
pub fn newest(places: &Items<Place>) -> Option<u64>
    ensures { IsNewest places.now result }
{
    let mut newest = None;
    for place in places.as_slice() {
        newest = newer(newest, number_of_place(place.as_slice()));
    }
    newest
}
