//! What the definitions in the crate's contracts mean. Each law is a function that does nothing: its contract is
//! the law.

ghost use Rattle.std.specs.Prelude.{◌≡◌, ◌≢◌, ℕ, ◌+◌, ◌<◌, ◌^◌, ◌↔◌, ◌⊎◌, List, length};
ghost use Rattle.om_subsets.specs.Subsets.{choose, all_subsets, subset_at, rank_of, IsSubsetFrom, IsMember};
ghost use Rattle.om_subsets.specs.Subsets.{with_element, without_element};
ghost use Rattle.om_subsets.specs.Lists.{IsIncreasing, IsWithin, IsBefore};
ghost use Rattle.om_subsets.specs.Members.{members, mask_of};
ghost use Rattle.om_subsets.specs.Reverse.{revlex_subsets, revlex_subset_at, revlex_rank_of, IsRevlexBefore};

/// A list is the increasing list of a subset of 1 to n exactly if each number is below the next and all are from 1
/// to n.
pub fn increasing_lists()
    ensures { (n : ℕ) (xs : List ℕ) → IsSubsetFrom 1 n xs ↔ (IsIncreasing xs × IsWithin 1 n xs) }
{}

/// The number of increasing lists of r of the numbers 1 to n is the number of ways to choose r of n. If r is above
/// n there are none.
pub fn number_of_subsets()
    ensures all { (n r : ℕ) → length (all_subsets n r) ≡ choose n r }
    ensures none { (n r : ℕ) → n < r → choose n r ≡ 0 }
{}

/// Each subset is at its place among those of its size, and the subset at each place has this place. So the lists
/// of one size are numbered from 0 on, each once.
pub fn places_and_lists()
    ensures small { (n : ℕ) (xs : List ℕ) → IsSubsetFrom 1 n xs → rank_of n xs < choose n (length xs) }
    ensures list_of_place { (n : ℕ) (xs : List ℕ) → IsSubsetFrom 1 n xs → subset_at n (length xs) (rank_of n xs) ≡ xs }
    ensures lawful { (n r k : ℕ) → k < choose n r → IsSubsetFrom 1 n (subset_at n r k) }
    ensures size { (n r k : ℕ) → k < choose n r → length (subset_at n r k) ≡ r }
    ensures place_of_list { (n r k : ℕ) → k < choose n r → rank_of n (subset_at n r k) ≡ k }
{}

/// Of two subsets of one size, the first has the smaller place exactly if it comes first lexicographically.
pub fn lexicographic_order()
    ensures { (n : ℕ) (xs ys : List ℕ) → IsSubsetFrom 1 n xs → IsSubsetFrom 1 n ys → length xs ≡ length ys
        → IsBefore xs ys ↔ (rank_of n xs < rank_of n ys) }
{}

/// The subset at the next place comes later lexicographically, and no subset of this size comes between the two.
pub fn successor()
    ensures later { (n : ℕ) (xs ys : List ℕ) → IsSubsetFrom 1 n xs → IsSubsetFrom 1 n ys → length xs ≡ length ys
        → rank_of n ys ≡ rank_of n xs + 1 → IsBefore xs ys }
    ensures next { (n : ℕ) (xs ys zs : List ℕ) → IsSubsetFrom 1 n xs → IsSubsetFrom 1 n ys → IsSubsetFrom 1 n zs
        → length xs ≡ length ys → length zs ≡ length xs → rank_of n ys ≡ rank_of n xs + 1 → IsBefore xs zs
        → IsBefore zs ys → ⊥ }
{}

/// Take two subsets of one size. The first has the smaller place in reverse lexicographic order exactly if it has
/// the smaller element at the last position in which their lists differ.
pub fn reverse_lexicographic_order()
    ensures { (n : ℕ) (xs ys : List ℕ) → IsSubsetFrom 1 n xs → IsSubsetFrom 1 n ys → length xs ≡ length ys
        → IsRevlexBefore xs ys ↔ (revlex_rank_of xs < revlex_rank_of ys) }
{}

/// The same for the reverse lexicographic order. It has as many lists as there are ways to choose r of n. Each
/// subset is at its place among those of its size, and the subset at each place has this place.
pub fn reverse_places_and_lists()
    ensures number { (n r : ℕ) → length (revlex_subsets n r) ≡ choose n r }
    ensures small { (n : ℕ) (xs : List ℕ) → IsSubsetFrom 1 n xs → revlex_rank_of xs < choose n (length xs) }
    ensures list_of_place { (n : ℕ) (xs : List ℕ) → IsSubsetFrom 1 n xs
        → revlex_subset_at n (length xs) (revlex_rank_of xs) ≡ xs }
    ensures lawful { (n r k : ℕ) → k < choose n r → IsSubsetFrom 1 n (revlex_subset_at n r k) }
    ensures size { (n r k : ℕ) → k < choose n r → length (revlex_subset_at n r k) ≡ r }
    ensures place_of_list { (n r k : ℕ) → k < choose n r → revlex_rank_of (revlex_subset_at n r k) ≡ k }
{}

/// A list with an element added has this element and its former ones. A list with an element left out has its
/// former ones other than this one.
pub fn changed_members()
    ensures with { (e f : ℕ) (xs : List ℕ) → IsMember f (with_element e xs) ↔ ((f ≡ e) ⊎ IsMember f xs) }
    ensures without { (e f : ℕ) (xs : List ℕ) → IsMember f (without_element e xs) ↔ ((f ≢ e) × IsMember f xs) }
{}

/// Masks of n bits and subsets of 1 to n correspond one to one.
pub fn masks_and_lists()
    ensures mask_of_list { (n mask : ℕ) → mask < 2 ^ n → mask_of 1 (members mask 1 n) n ≡ mask }
    ensures list_of_mask { (n : ℕ) (xs : List ℕ) → IsSubsetFrom 1 n xs → members (mask_of 1 xs n) 1 n ≡ xs }
    ensures within { (n : ℕ) (xs : List ℕ) → mask_of 1 xs n < 2 ^ n }
{}
