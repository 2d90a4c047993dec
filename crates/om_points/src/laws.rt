//! What the definitions in the crate's contracts mean. Each law is a function that does nothing: its contract is
//! the law.

ghost use Rattle.std.specs.Prelude.{ℕ, ◌≤◌, ◌<◌, List, length};
ghost use Rattle.om_chirotope.specs.Map.{SignMap};
ghost use Rattle.om_vectors.specs.WholeVectors.{WholeVector};
ghost use Rattle.om_points.specs.Budgets.{candidates_in, words_of};
ghost use Rattle.om_points.specs.Candidates.{IsCandidate};
ghost use Rattle.om_points.specs.Numbers.{HasNumber};
ghost use Rattle.om_points.specs.Searches.{IsFrontier};
ghost use Rattle.om_points.specs.Starts.{Start, IsStart};
ghost use Rattle.om_points.specs.Words.{IsWord};

/// In a box of b there are c = (2b + 1)^3 - 1 candidates. For f free elements there are c + c^2 + .. + c^f nonempty
/// words.
pub fn number_of_words()
    ensures candidates { (box : ℕ) → HasNumber (IsCandidate box) (candidates_in box) }
    ensures words { (box : ℕ) (s : Start)
        → HasNumber (λ w. IsWord box s w × (1 ≤ length w)) (words_of (candidates_in box) (length s.free)) }
{}

/// The budget of a frontier is less than the number of nonempty words, so a budget of that many steps is always
/// enough.
pub fn budgets_of_frontiers()
    ensures { (m : SignMap) (box steps : ℕ) (w : List WholeVector) (s : Start) → IsStart m s → IsFrontier box m steps w
        → steps < words_of (candidates_in box) (length s.free) }
{}
