//! The type of this crate can cross threads.

use super::subset::Subset;

/// A type whose values may be moved to another thread and shared between threads.
trait Crosses: Send + Sync {}

impl Crosses for Subset {}
