//! How places lie to each other.
ghost use Rattle.std.specs.Prelude.{◌≡◌};
ghost use Rattle.ns_tree.specs.Places.{is_below, component_count};

/// Whether a place lies below a directory: its text begins with the directory's text and a slash.
pub fn is_below(dir: &[u8], place: &[u8]) -> bool
    ensures { result ≡ is_below dir.now place.now }
{
    if place.len() <= dir.len() {
        return false;
    }
    place[dir.len()] == b'/' && place.starts_with(dir)
}

/// How many components a place has.
pub fn component_count(place: &[u8]) -> usize
    ensures { result ≡ component_count place.now }
{
    place.iter().filter(|byte| **byte == b'/').count() + 1
}
