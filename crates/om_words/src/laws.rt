//! The number of the limit. The law is a function that does nothing: its contract is the law.

ghost use Rattle.std.specs.Prelude.{◌≡◌};

use super::limits::MAX_LISTED;

/// The number that the limit of this crate is. Definitions use the limit by its name, so a changed number shows in
/// this law.
pub fn number_of_the_limit()
    ensures listed { MAX_LISTED ≡ 20 }
{}
