//! What holds of the cells that a read shows.

ghost use Rattle.std.specs.Prelude.{ℕ, Bool, List};
ghost use Rattle.hb_cell.specs.declared.cell.Cell.{Cell};
ghost use Rattle.cell_sight.specs.VisibleLaws.{ShowsExactly, Ascends, SameSeen, SameSorted, SameInOrder, SeenAgain, SeenByRow, SeenByFamily, SeenAmong};

/// A cell is shown exactly where it is a put that no marker hides, the first of its column and timestamp, and one of
/// the newest of its column; the cells that are shown ascend strictly in key order.
pub fn shows_exactly()
    ensures exact { (families : List (List ℕ × ℕ)) (cells : List Cell) → ShowsExactly families cells }
    ensures ascending { (families : List (List ℕ × ℕ)) (cells : List Cell) → Ascends families cells }
{}

/// The same cells show the same, in whatever order they came; put in key order, as a minor compaction puts them, they
/// are the same cells; and what is shown shows again.
pub fn shows_the_same()
    ensures same { (families : List (List ℕ × ℕ)) (xs ys : List Cell) → SameSeen families xs ys }
    ensures sorted { (xs ys : List Cell) → SameSorted xs ys }
    ensures in_order { (cells : List Cell) → SameInOrder cells }
    ensures again { (families : List (List ℕ × ℕ)) (cells : List Cell) → SeenAgain families cells }
{}

/// Rows and families are judged one by one: some of them show what they show among all. What is visible of a whole is
/// visible among any part that has it and all that hides.
pub fn shows_by_part()
    ensures rows { (families : List (List ℕ × ℕ)) (p : List ℕ → Bool) (cells : List Cell) → SeenByRow families p cells }
    ensures families { (families : List (List ℕ × ℕ)) (p : List ℕ → Bool) (cells : List Cell) → SeenByFamily families p cells }
    ensures among { (families : List (List ℕ × ℕ)) (whole part : List Cell) (c : Cell) → SeenAmong families whole part c }
{}
