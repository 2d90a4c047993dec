//! The subsets of one size, one after the other.

ghost use Rattle.std.specs.Prelude.{◌≡◌, ◌≤◌, length};
ghost use Rattle.std.specs.Iterator.{YieldsFirst, item_count};
ghost use Rattle.om_subsets.specs.Sets.{all_sets};

use super::binomials::MOST_SUBSETS;
use super::subset::Subset;
use om_signs::MAX_PLACES;
use std::marker::Model;

/// The subsets of one size that are still to come, in lexicographic order. Contracts see it as their list.
#[derive(Drop)]
pub struct Subsets {
    next: Option<Subset>,
}

impl Model for Subsets {
    ghost use Rattle.std.specs.Prelude.{List};
    ghost use Rattle.om_subsets.specs.Members.{Chosen};
    ghost use Rattle.om_subsets.specs.Sets.{set_and_later};

    ghost Value = { List Chosen };

    ghost view = { λ s. set_and_later s.next };
}

impl Iterator for Subsets {
    type Item = Subset;

    ghost next_gives = { YieldsFirst (λ s. s) };

    ghost remaining = { item_count (λ s. s) };

    fn next(&mut self) -> Option<Subset> {
        let set = self.next?;
        self.next = set.next();
        Some(set)
    }
}

impl Subset {
    /// The subsets of r of the elements 1 to n, in lexicographic order; none if r is above n. `n` is at most
    /// [`MAX_PLACES`].
    pub fn all(r: u8, n: u8) -> Subsets
        requires { n ≤ MAX_PLACES }
        ensures sets { result ≡ all_sets n r }
        ensures few { length result ≤ MOST_SUBSETS }
    {
        Subsets {
            next: if r <= n {
                Some(Subset::first(r, n))
            } else {
                None
            },
        }
    }
}
