//! That each file of the layout has a place, and that no two kinds share one.

ghost use Rattle.std.specs.Prelude.{◌≡◌};
ghost use Rattle.hb_layout.specs.Spot.{Spot, place_text};
ghost use Rattle.hb_layout.specs.Lawful.{IsSpelled, IsLawful};
ghost use Rattle.hb_names.specs.Place.{IsPlace};

/// The greatest number of a list or a set.
pub const MAX_LIST_NUMBER: u64 = 9_223_372_036_854_775_807;
/// The greatest number of an opening.
pub const MAX_EPOCH: u32 = 2_147_483_647;

/// A spot whose names are in their grammars has a place, and two of them with the same place are the same
/// spot. So the places of a base are one to one, a live one is never an archived one, and none is that of
/// a link or a reference.
pub fn spots_apart()
    ensures places { (p : Spot) → IsSpelled p → IsPlace (place_text p) }
    ensures apart { (p q : Spot) → IsSpelled p → IsSpelled q → place_text p ≡ place_text q → p ≡ q }
    ensures lawful { (p q : Spot) → IsLawful p → IsLawful q → place_text p ≡ place_text q → p ≡ q }
{}
