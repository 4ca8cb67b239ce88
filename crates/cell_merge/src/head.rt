//! What an input of a merge has left.
ghost use Rattle.std.specs.Prelude.{◌≡◌, Some, refl};
ghost use Rattle.std.specs.Ordering.{eq_by_cmp};
ghost use Rattle.std.specs.Cmp.{partial_equiv_from_equiv, partial_order_from_total};
ghost use Rattle.std.proofs.lemmas.Cmp.{eq_by_cmp_equiv};
ghost use Rattle.cell_merge.specs.Heads.{head_cmp};
ghost use Rattle.cell_merge.specs.HeadsLaws.{head_cmp_total};

use hb_cell::Cell;
use std::cmp::Ordering;
use std::vec::IntoIter;

/// An input that has cells left: the least of them, and the others behind it.
#[derive(Debug, Drop)]
pub(crate) struct Head {
    pub(crate) cell: Cell,
    pub(crate) rest: IntoIter<Cell>,
}

// A heap has its greatest element first, so the head with the least cell is the greatest.
impl PartialEq for Head {
    ghost eq = { eq_by_cmp head_cmp };

    ghost laws = { partial_equiv_from_equiv (eq_by_cmp_equiv head_cmp_total) };

    fn eq(&self, other: &Head) -> bool {
        self.cmp(other).is_eq()
    }
}

impl Eq for Head {
    ghost laws = { eq_by_cmp_equiv head_cmp_total };
}

impl PartialOrd for Head {
    ghost partial_cmp = { λ a b. Some (head_cmp a b) };

    ghost laws = { partial_order_from_total head_cmp_total };

    fn partial_cmp(&self, other: &Head) -> Option<Ordering> {
        Some(self.cmp(other))
    }
}

impl Ord for Head {
    ghost cmp = { head_cmp };

    ghost total = { head_cmp_total };

    ghost matches_partial_cmp = { λ a b. refl };

    ghost matches_eq = { λ a b. refl };

    fn cmp(&self, other: &Head) -> Ordering {
        other.cell.cmp(&self.cell)
    }
}
