//! The places of files, as they change.

ghost use Rattle.std.specs.Prelude.{◌≡◌, true, IfSome, OnOk};
ghost use Rattle.hb_cell.specs.Order.{bytes_cmp};
ghost use Rattle.reserved_map.specs.Filled.{filled, is_reserved};
ghost use Rattle.core_places.specs.Places.{taken_out, put_in};

use crate::change::PlaceChange;
use hb_names::Place;
use hb_wire::NoMemory;
use reserved_map::ReservedMap;

/// Takes the memory that a change of the places needs.
pub fn ready_places(
    places: &mut ReservedMap<Place, ()>,
    change: &PlaceChange,
) -> Result<(), NoMemory>
    ensures ready { OnOk result (IfSome change.now.made (λ place. is_reserved bytes_cmp places.new place ≡ true)) }
    ensures same { filled bytes_cmp places.new ≡ filled bytes_cmp places.old }
{
    match &change.made {
        Some(place) => places.reserve(place),
        None => Ok(()),
    }
}

/// Makes a change of the places. It takes no memory.
pub fn places_after(places: &mut ReservedMap<Place, ()>, change: &PlaceChange)
    requires { IfSome change.now.made (λ place. is_reserved bytes_cmp places.old place ≡ true) }
    ensures { filled bytes_cmp places.new ≡ put_in change.now.made (taken_out change.now.gone (filled bytes_cmp places.old)) }
{
    take_out(places, &change.gone);
    put_in(places, &change.made);
    release_at(places, &change.gone);
}

fn take_out(places: &mut ReservedMap<Place, ()>, place: &Option<Place>)
    ensures filled { filled bytes_cmp places.new ≡ taken_out place.now (filled bytes_cmp places.old) }
    ensures reserved { (q : _) → is_reserved bytes_cmp places.new q ≡ is_reserved bytes_cmp places.old q }
{
    if let Some(place) = place {
        places.take(place);
    }
}

fn put_in(places: &mut ReservedMap<Place, ()>, place: &Option<Place>)
    requires { IfSome place.now (λ p. is_reserved bytes_cmp places.old p ≡ true) }
    ensures { filled bytes_cmp places.new ≡ put_in place.now (filled bytes_cmp places.old) }
{
    if let Some(place) = place {
        places.put(place, ());
    }
}

/// Gives the memory of a place without a file back.
fn release_at(places: &mut ReservedMap<Place, ()>, place: &Option<Place>)
    ensures { filled bytes_cmp places.new ≡ filled bytes_cmp places.old }
{
    if let Some(place) = place {
        places.release(place);
    }
}
