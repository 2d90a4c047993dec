//! The types of this crate can cross threads.

use super::circuits::Circuits;
use super::cocircuits::Cocircuits;
use super::signed_set::SignedSet;

/// A type whose values may be moved to another thread and shared between threads.
trait Crosses: Send + Sync {}

impl Crosses for SignedSet {}

impl Crosses for Circuits {}

impl Crosses for Cocircuits {}
