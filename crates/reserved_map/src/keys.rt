//! Keys of maps.

use hb_file_names::FileName;
use hb_names::{Place, SnapName, TableName};
use plain_model::RegionKey;

/// Keys of which only equal ones tie.
pub trait ExactKey: Ord + Drop {
    ghost use Rattle.std.specs.FinMap.{IsAntisymmetric};

    ghost exact: { IsAntisymmetric Self.cmp };
}

impl ExactKey for u32 {
    ghost use Rattle.std.specs.FinMap.{nat_cmp-IsAntisymmetric};

    ghost exact = { nat_cmp-IsAntisymmetric };
}

impl ExactKey for TableName {
    ghost use Rattle.reserved_map.specs.Keys.{bytes_cmp-exact};

    ghost exact = { bytes_cmp-exact };
}

impl ExactKey for SnapName {
    ghost use Rattle.reserved_map.specs.Keys.{bytes_cmp-exact};

    ghost exact = { bytes_cmp-exact };
}

impl ExactKey for FileName {
    ghost use Rattle.reserved_map.specs.Keys.{bytes_cmp-exact};

    ghost exact = { bytes_cmp-exact };
}

impl ExactKey for Place {
    ghost use Rattle.reserved_map.specs.Keys.{bytes_cmp-exact};

    ghost exact = { bytes_cmp-exact };
}

impl ExactKey for RegionKey {
    ghost use Rattle.reserved_map.specs.Keys.{region_cmp-exact};

    ghost exact = { region_cmp-exact };
}
