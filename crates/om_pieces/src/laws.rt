//! Laws of cuts.

ghost use Rattle.std.specs.Prelude.{ℕ, ◌≡◌, ◌≤◌, ◌++◌, List, map, take};
ghost use Rattle.om_pieces.specs.Pieces.{IsCut, HasOneCut, GiveBack};
ghost use Rattle.om_pieces.specs.Making.{most, completed, made, nothing};

/// Bytes have one cut into pieces, and the cutter makes the first bytes of each of its pieces. The pieces that are
/// whole in bytes are the first ones, whatever bytes follow.
pub fn one_cut()
    ensures one { (n : ℕ) (bytes : List ℕ) → 1 ≤ n → HasOneCut n bytes }
    ensures made { (n : ℕ) (bytes : List ℕ) (pieces : List (List ℕ)) → IsCut n bytes pieces
        → made (nothing n) bytes ≡ map (take most) pieces }
    ensures whole { (n : ℕ) (bytes rest : List ℕ) (pieces : List (List ℕ)) → IsCut n (bytes ++ rest) pieces
        → (left : List (List ℕ)) × (map (take most) pieces ≡ completed (nothing n) bytes ++ left) }
{}

/// The pieces of a cut, one after the other, and the remaining bytes, which have no word, are all the bytes.
pub fn pieces_give_back()
    ensures { (n : ℕ) (bytes : List ℕ) (pieces : List (List ℕ)) → IsCut n bytes pieces → GiveBack pieces bytes }
{}
